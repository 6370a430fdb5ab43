// The settings of an outline. A module of its own, so that the ranges can be part of the type.
ghost use Rattle.std.specs.Prelude.{◌≤◌};

// Units per em, and the standard stem width (0: none).
#[derive(Clone, Copy)]
pub struct Settings {
    units: u16,
    width: u16,
    ghost units_low: { 16 ≤ units },
    ghost units_high: { units ≤ 16384 },
    ghost width_high: { width ≤ 16383 },
}

pub mod checks;
