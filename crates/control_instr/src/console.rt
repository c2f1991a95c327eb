// DIAGNOSE, whose two functions are the console.
ghost use Rattle.std.specs.Prelude.{◌≡◌};
ghost use Rattle.esa_model.specs.ControlRows.{console_called};

/// The console by DIAGNOSE: whether it reads (X'104') or writes (X'100') so many bytes. `None`
/// exactly where that is a specification exception: another function, or a count of 0 or above 256.
/// Source: choice of this project.
#[tactic(auto, unfolding(esa_model::specs::ControlRows::console_called))]
pub fn console_call(function: u32, count: u32) -> Option<bool>
    ensures { result ≡ console_called function count }
{
    if count < 1 || 256 < count {
        return None;
    }
    match function {
        0x100 => Some(false),
        0x104 => Some(true),
        _ => None,
    }
}
