// Turns reset values into a configuration, or turns them down. The three numbers are what the project's rules have it asked.
ghost use Rattle.std.specs.Prelude.{◌≡◌, ◌<◌};
ghost use Rattle.cpu.specs.Config.{unsupported, too_many, breakpoints_without_debug, unaligned, line_count, breakpoint_count, line_mask, vetted};

use crate::config::{Config, ConfigRefusal};
use crate::field::{field, has_bit};

fn line_count(cfg: u32) -> u32
    ensures { result ≡ line_count cfg }
{
    field::<12, 6>(cfg)
}

pub(crate) fn breakpoint_count(cfg: u32) -> u32
    ensures { result ≡ breakpoint_count cfg }
{
    field::<18, 4>(cfg)
}

fn is_unsupported(cfg: u32) -> bool
    ensures { result ≡ unsupported cfg }
{
    has_bit(3, cfg)
        || has_bit(6, cfg)
        || has_bit(9, cfg)
        || has_bit(10, cfg)
        || has_bit(11, cfg)
        || field::<22, 4>(cfg) != 0
}

fn has_too_many(cfg: u32) -> bool
    ensures { result ≡ too_many cfg }
{
    line_count(cfg) > 32 || breakpoint_count(cfg) > 4
}

fn lacks_debug(cfg: u32) -> bool
    ensures { result ≡ breakpoints_without_debug cfg }
{
    breakpoint_count(cfg) > 0 && !has_bit(8, cfg)
}

fn is_unaligned(base: u32) -> bool
    ensures { result ≡ unaligned base }
{
    base % 256 != 0
}

fn line_mask(cfg: u32) -> u32
    requires { line_count cfg < 33 }
    ensures { result ≡ line_mask cfg }
{
    let count = line_count(cfg);
    if count == 32 {
        u32::MAX
    } else {
        (1 << count) - 1
    }
}

/// The configuration of a CFG word and the reset values of the two exception bases; the lowest refusal that applies is told.
pub fn vet(cfg: u32, eba: u32, deba: u32) -> Result<Config, ConfigRefusal>
    ensures answer { result ≡ vetted cfg eba deba }
{
    if is_unsupported(cfg) {
        return Err(ConfigRefusal::Unsupported);
    }
    if has_too_many(cfg) {
        return Err(ConfigRefusal::TooMany);
    }
    if lacks_debug(cfg) {
        return Err(ConfigRefusal::BreakpointsWithoutDebug);
    }
    if is_unaligned(eba) || is_unaligned(deba) {
        return Err(ConfigRefusal::BaseUnaligned);
    }
    let mask = line_mask(cfg);
    Ok(Config {
        cfg,
        eba,
        deba,
        mask,
    })
}
