//! The first constant that clashes with an earlier one.
ghost use Rattle.std.specs.Prelude.{◌≡◌, ◌+◌, ◌<◌, ◌≤◌, length, replicate, slice_index, [], IfOk};
ghost use Rattle.deck_model.specs.Image.{bytes_from};
ghost use Rattle.deck_loader.specs.Written.{stored};
ghost use Rattle.deck_link.specs.Constants.{ConstantsIn};
ghost use Rattle.deck_link.specs.Marks.{tag, is_other, hits, clash_in};

use crate::constants::Constant;
use std::alloc::{AllocError, Global};

// What marks byte i of a constant.
fn tag_of(width: u8, i: u8) -> u8
    requires width { width ≤ 4 }
    requires i { i < 4 }
    ensures { result ≡ tag width i }
{
    width * 4 + i + 1
}

fn is_other_mark(mark: u8, width: u8, i: u8) -> bool
    requires width { width ≤ 4 }
    requires i { i < 4 }
    ensures { result ≡ is_other width i mark }
{
    mark != 0 && mark != tag_of(width, i)
}

// Whether a constant shares a byte with another one that is marked.
fn is_hit(marks: &[u8], at: usize, width: u8) -> bool
    requires width { width ≤ 4 }
    requires inside { at + width ≤ length marks.now }
    ensures { result ≡ hits (slice_index marks.now) at width 0 width }
{
    for i in 0..width {
        if is_other_mark(marks[at + usize::from(i)], width, i) {
            return true;
        }
    }
    false
}

fn mark_constant(marks: &mut [u8], at: usize, width: u8)
    requires width { width ≤ 4 }
    requires inside { at + width ≤ length marks.old }
    ensures value { marks.new ≡ stored at (bytes_from (tag width) 0 width) marks.old }
    ensures long { length marks.new ≡ length marks.old }
{
    for i in 0..width {
        marks[at + usize::from(i)] = tag_of(width, i);
    }
}

// One byte for each of the section is marked by the constants, up to the first that clashes.
fn clash_on(marks: &mut [u8], constants: &[Constant]) -> Option<u32>
    requires inside { ConstantsIn (length marks.old) constants.now }
    requires none { marks.old ≡ replicate (length marks.old) 0 }
    ensures { result ≡ clash_in [] constants.now }
{
    let mut rest = constants;
    while let Some((first, after)) = rest.split_first() {
        let c = *first;
        if is_hit(marks, c.at as usize, c.width) {
            return Some(c.number);
        }
        mark_constant(marks, c.at as usize, c.width);
        rest = after;
    }
    None
}

/// The number of the card of the first constant that shares a byte with an earlier one and differs
/// from it in place or width. Each lies in a section of so many bytes.
pub fn first_clash(
    alloc: Global,
    extent: usize,
    constants: &[Constant],
) -> Result<Option<u32>, AllocError>
    requires { ConstantsIn extent constants.now }
    ensures { IfOk result (λ n. n ≡ clash_in [] constants.now) }
{
    let mut marks = vec![in alloc; 0u8; extent]?;
    Ok(clash_on(&mut marks, constants))
}
