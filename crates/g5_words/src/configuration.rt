// The configuration that the options give.
ghost use Rattle.std.specs.Prelude.{◌≡◌, ◌≤◌, option_map, IfSome};
ghost use Rattle.clap.specs.Matches.{found_of, first_value};
ghost use Rattle.program_model.specs.Commands.{number_or, pages_of, config_by};
ghost use Rattle.g5_words.specs.Ranges.{IsInLimits};

use crate::numbers::number;
use clap::ArgMatches;
use run_model::logs::Config;

// An option's number, or its default.
fn number_of(text: Option<&str>, least: u32, most: u32, default: u32) -> Option<u32>
    requires low { least ≤ default }
    requires high { default ≤ most }
    ensures value { result ≡ number_or least most default (option_map (λ t. t.now) text.entry) }
    ensures range { IfSome result (λ n. (least ≤ n) × (n ≤ most)) }
{
    match text {
        Some(text) => number(text, least, most),
        None => Some(default),
    }
}

// KiB in steps of 64, as pages of 4 KiB.
fn pages(kib: Option<u32>) -> Option<u32>
    requires { IfSome kib (λ k. (128 ≤ k) × (k ≤ 16384)) }
    ensures value { result ≡ pages_of kib }
    ensures range { IfSome result (λ n. (32 ≤ n) × (n ≤ 4096)) }
{
    match kib {
        Some(kib) if kib % 64 == 0 => Some(kib / 4),
        _ => None,
    }
}

/// The configuration that the options give, None exactly where a number is out of its range.
pub fn config_in(matches: &ArgMatches<'_>) -> Option<Config>
    ensures value { result ≡ config_by (first_value (found_of matches.now)) }
    ensures limits { IfSome result IsInLimits }
{
    let cpus = number_of(matches.get_str("cpus"), 1, 8, 1)?;
    let spares = number_of(matches.get_str("spares"), 0, 8, 0)?;
    let pages = pages(number_of(matches.get_str("storage"), 128, 16384, 128))?;
    let threshold = number_of(matches.get_str("threshold"), 0, 15, 3)?;
    Some(Config {
        cpus: cpus as u8,
        spares: spares as u8,
        pages: pages as u16,
        threshold: threshold as u8,
    })
}
