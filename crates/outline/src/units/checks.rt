// Making and reading settings.
ghost use Rattle.std.specs.Prelude.{◌≡◌, ◌≤◌, MatchResult};
ghost use Rattle.outline.specs.Units.{Accepted, Refused, number, near_limit};

use super::Settings;

const LEAST_UNITS: u16 = 16;

const MOST_UNITS: u16 = 16384;

const MOST_WIDTH: u16 = 16383;

// Why settings are refused.
#[derive(Debug, Clone, Copy, PartialEq, Eq)]
pub enum SettingsFault {
    Units = 1,
    Width = 2,
}

impl SettingsFault {
    // The number of the refusal.
    pub fn number(self) -> u8
        ensures { result ≡ number self }
    {
        self as u8
    }
}

impl Settings {
    // Settings within their ranges; the units are checked first.
    pub fn new(units: u16, width: u16) -> Result<Settings, SettingsFault>
        ensures { MatchResult result (Accepted units width) (Refused units width) }
    {
        if units < LEAST_UNITS || units > MOST_UNITS {
            return Err(SettingsFault::Units);
        }
        if width > MOST_WIDTH {
            return Err(SettingsFault::Width);
        }
        Ok(Settings { units, width })
    }

    pub fn units(&self) -> u16
        ensures value { result ≡ self.now.units }
        ensures low_bound { 16 ≤ result }
        ensures high_bound { result ≤ 16384 }
    {
        self.units
    }

    // The standard stem width; 0 means none.
    pub fn width(&self) -> u16
        ensures value { result ≡ self.now.width }
        ensures bound { result ≤ 16383 }
    {
        self.width
    }

    // The length below which a step is near: 20 units of 2,048.
    pub fn near_limit(&self) -> u32
        ensures value { result ≡ near_limit self.now.units }
        ensures bound { result ≤ 160 }
    {
        20 * self.units as u32 / 2048
    }
}
