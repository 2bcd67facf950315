// What is withheld of a board's file, as it is withheld in a bank's view.
ghost use Rattle.std.specs.Prelude.{◌≡◌, ◌<◌, ◌+◌};
ghost use Rattle.bank_rules.specs.Cut.{place, cut_numbers, cut_settings};

use crate::board::BANK;
use image::cover::Stretches;
use run::Settings;

// How many bytes of the first x of the file bank k's view shows: those of the common part, and those of the bank.
fn place(k: usize, x: u64) -> u64
    requires { k < 16 }
    ensures { result ≡ place k x }
{
    let size = BANK as u64;
    let start = size * (k as u64 + 1);
    x.min(size) + x.saturating_sub(start).min(size)
}

// The same for the end of a stretch. An end that is too large a number is past every board, and so is the largest one.
fn place_end(k: usize, start: u64, len: u64) -> u64
    requires { k < 16 }
    ensures { result ≡ place k (start + len) }
{
    place(k, start.saturating_add(len))
}

// Cuts the stretches in a list of numbers: start, length, start, length, and so on.
fn cut_numbers(k: usize, pairs: &mut [u64])
    requires { k < 16 }
    ensures { pairs.new ≡ cut_numbers k pairs.old }
{
    for i in (1..pairs.len()).step_by(2) {
        let start = pairs[i - 1];
        let len = pairs[i];
        let first = place(k, start);
        pairs[i - 1] = first;
        pairs[i] = place_end(k, start, len) - first;
    }
}

// The settings for bank k's view: only what is withheld differs.
pub fn cut(settings: Settings, k: usize) -> Settings
    requires { k < 16 }
    ensures { result ≡ cut_settings k settings }
{
    let withheld = settings.withheld;
    let mut pairs = withheld.pairs;
    cut_numbers(k, &mut pairs);
    Settings {
        withheld: Stretches {
            count: withheld.count,
            pairs,
        },
        ..settings
    }
}
