// The three files that can be created in memory.
ghost use Rattle.std.specs.Prelude.{◌≡◌, ◌≢◌, ◌-◌, ◌<◌, ◌≤◌, ◌++◌, [], ℕ, length, take, min, IfOk};
ghost use Rattle.g5_outside.specs.BoundedTexts.{text_in, room_in};

use crate::NoMemory;
use crate::bounded_text::BoundedText;
use std::alloc::Global;

/// A file in memory: its name and the bytes written, with the same room for each.
#[derive(Drop)]
pub struct CreatedFile {
    pub name: BoundedText,
    pub text: BoundedText,
    ghost same_room: { room_in name ≡ room_in text },
}

impl CreatedFile {
    fn new(alloc: Global, room: usize) -> Result<CreatedFile, NoMemory>
        ensures { IfOk result (λ file. room_in file.text ≡ room) }
    {
        Ok(CreatedFile {
            name: BoundedText::new(alloc, room)?,
            text: BoundedText::new(alloc, room)?,
        })
    }

    // Gives it a name and no byte.
    fn start(&mut self, name: &[u8])
        requires { length name.now ≤ room_in self.old.text }
        ensures named { text_in self.new.name ≡ name.now }
        ensures empty { text_in self.new.text ≡ [] }
        ensures room { room_in self.new.text ≡ room_in self.old.text }
    {
        self.text.clear();
        self.name.clear();
        self.name.add(name, name.len());
    }
}

/// Three files by the numbers 0 to 2, with the same room.
#[derive(Drop)]
pub struct CreatedFiles {
    pub first: CreatedFile,
    pub second: CreatedFile,
    pub third: CreatedFile,
    ghost second_room: { room_in second.text ≡ room_in first.text },
    ghost third_room: { room_in third.text ≡ room_in first.text },
}

impl CreatedFiles {
    ghost use Rattle.g5_outside.specs.CreatedFiles.{name_in, created_text, files_room};

    pub fn new(alloc: Global, room: usize) -> Result<CreatedFiles, NoMemory>
        ensures { IfOk result (λ files. files_room files ≡ room) }
    {
        Ok(CreatedFiles {
            first: CreatedFile::new(alloc, room)?,
            second: CreatedFile::new(alloc, room)?,
            third: CreatedFile::new(alloc, room)?,
        })
    }

    pub fn room(&self) -> usize
        ensures { result ≡ files_room self.now }
    {
        self.first.text.room()
    }

    /// Gives a number its name and no byte.
    pub fn start(&mut self, number: u32, name: &[u8])
        requires number { number < 3 }
        requires fits { length name.now ≤ files_room self.old }
        ensures named { name_in self.new number ≡ name.now }
        ensures empty { created_text self.new number ≡ [] }
        ensures names { (n : ℕ) → n < number → name_in self.new n ≡ name_in self.old n }
        ensures texts { (n : ℕ) → n < number → created_text self.new n ≡ created_text self.old n }
        ensures room { files_room self.new ≡ files_room self.old }
    {
        match number {
            0 => self.first.start(name),
            1 => self.second.start(name),
            _ => self.third.start(name),
        }
    }

    /// Adds as many first bytes to the text of a number as there is room for, at most so many, and says
    /// how many.
    pub fn add(&mut self, number: u32, bytes: &[u8], most: usize) -> usize
        requires { number < 3 }
        ensures count { result ≡ min (min (files_room self.old - length (created_text self.old number)) (length bytes.now)) most }
        ensures text { created_text self.new number ≡ created_text self.old number ++ take result bytes.now }
        ensures names { (n : ℕ) → name_in self.new n ≡ name_in self.old n }
        ensures others { (n : ℕ) → n ≢ number → created_text self.new n ≡ created_text self.old n }
        ensures room { files_room self.new ≡ files_room self.old }
    {
        match number {
            0 => self.first.text.add(bytes, most),
            1 => self.second.text.add(bytes, most),
            _ => self.third.text.add(bytes, most),
        }
    }
}
