// The settings that the options ask for. Where an option is not given, they are as the command's help says.
ghost use Rattle.std.specs.Prelude.{◌≡◌};
ghost use Rattle.command.specs.SettingsOf.{number_or, depth_of, skip_read, settings_of, settings_with};

use crate::mistake::{Fault, Mistake};
use crate::options::Options;
use image::cover::Stretches;
use run::Settings;

// Settings but for what is withheld.
#[derive(Clone, Copy)]
pub struct Plain {
    pub rules: u64,
    pub edition: u64,
    pub depth: u64,
    pub minimum: usize,
    pub skip: Option<usize>,
}

// The rule set where nothing is said: as documented.
const RULES: u64 = 1;

// The edition where nothing is said: as document 01 reads a library.
const EDITION: u64 = 1;

// The depth where nothing is said: what a match refers to is looked at, and no further.
const DEPTH: u64 = 1;

// How many bytes of a pattern must count for it to be listed on its own, where nothing is said: as in document 01's printed case. at51's own command line
// is not among the papers.
const MINIMUM: u64 = 3;

// An option's value, or what holds where the option is not given.
fn number_or(value: Option<Result<u64, Mistake>>, otherwise: u64) -> Result<u64, Mistake>
    ensures { result ≡ number_or value otherwise }
{
    value.unwrap_or(Ok(otherwise))
}

// To what depth references are checked. --no-check is --depth 0, and may not stand beside it: that is told as a wrong depth is.
fn depth_of(check: bool, value: Option<Result<u64, Mistake>>) -> Result<u64, Mistake>
    ensures { result ≡ depth_of check value }
{
    if check {
        return number_or(value, DEPTH);
    }
    match value {
        None => Ok(0),
        Some(_) => Err(Fault::BothDepths.at(0)),
    }
}

// No address is left out where no skip amount is given.
fn skip_of(value: Option<Result<u64, Mistake>>) -> Result<Option<usize>, Mistake>
    ensures { result ≡ skip_read value }
{
    match value {
        None => Ok(None),
        Some(read) => Ok(Some(read? as usize)),
    }
}

// Of several values that are wrong the rules' is told first, then the edition, the depth, the minimum, the first stretch that is, and the skip amount.
// Stretches that are right are put in later.
#[tactic(auto, unfolding(crate::specs::SettingsOf::settings_of))]
pub fn settings_of(o: Options) -> Result<Plain, Mistake>
    ensures { result ≡ settings_of o }
{
    let rules = number_or(o.rules, RULES)?;
    let edition = number_or(o.edition, EDITION)?;
    let depth = depth_of(o.check, o.depth)?;
    let minimum = number_or(o.minimum, MINIMUM)?;
    o.withheld?;
    let skip = skip_of(o.skip)?;
    Ok(Plain {
        rules,
        edition,
        depth,
        minimum: minimum as usize,
        skip,
    })
}

// The settings with what is withheld.
pub fn settings_with(plain: Plain, withheld: Stretches) -> Settings
    ensures { result ≡ settings_with plain withheld }
{
    Settings {
        rules: plain.rules,
        edition: plain.edition,
        depth: plain.depth,
        minimum: plain.minimum,
        skip: plain.skip,
        withheld,
    }
}
