//! The last reading, the last sample and the last Settle of a tank.

ghost use Rattle.std.specs.Prelude.{◌≡◌};
ghost use Rattle.history_lookups.specs.Pasts.{IsReadable};
ghost use Rattle.history_lookups.specs.Sought.{is_sought};
ghost use Rattle.farm_history.specs.Commands.{is_gauging_of, is_sample_of, settles};
ghost use Rattle.farm_history.specs.Movements.{last_settlement};
ghost use Rattle.farm_history.specs.Places.{last_such};
ghost use Rattle.farm_history.specs.Stocks.{last_reading, last_sample};

use crate::Past;
use farm_history::Command;

// What is sought among the entries of a tank.
#[derive(Clone, Copy)]
enum Sought {
    // A gauge's reading or a dip.
    Gauging,
    // A sample.
    Sample,
    // A Settle.
    Settlement,
}

impl Past<'_> {
    /// The place of the last gauge's reading or dip of a tank. `None` if and only if there isn't one.
    #[tactic(auto, unfolding(farm_history::specs::Stocks::last_reading))]
    pub fn last_reading(&self, tank: u16) -> Option<u32>
        requires readable { IsReadable self.now }
        ensures reading { result ≡ last_reading self.now tank }
    {
        self.last_sought(Sought::Gauging, tank)
    }

    /// The place of the last sample of a tank. `None` if and only if there isn't one.
    #[tactic(auto, unfolding(farm_history::specs::Stocks::last_sample))]
    pub fn last_sample(&self, tank: u16) -> Option<u32>
        requires readable { IsReadable self.now }
        ensures sample { result ≡ last_sample self.now tank }
    {
        self.last_sought(Sought::Sample, tank)
    }

    /// The place of the last Settle of a tank. `None` if and only if there isn't one.
    #[tactic(auto, unfolding(farm_history::specs::Movements::last_settlement))]
    pub fn last_settlement(&self, tank: u16) -> Option<u32>
        requires readable { IsReadable self.now }
        ensures settlement { result ≡ last_settlement self.now tank }
    {
        self.last_sought(Sought::Settlement, tank)
    }

    // The place of the last entry of a tank that is sought.
    fn last_sought(&self, sought: Sought, tank: u16) -> Option<u32>
        requires readable { IsReadable self.now }
        ensures last { result ≡ last_such (λ entry. is_sought sought tank entry.cmd) self.now.entries }
    {
        let mut last = None;
        for (index, entry) in self.entries.iter().enumerate() {
            if is_sought(sought, tank, &entry.cmd) {
                last = Some(index as u32 + 1);
            }
        }
        last
    }
}

// Whether a command is of a tank and what is sought.
fn is_sought(sought: Sought, tank: u16, command: &Command) -> bool
    ensures sought { result ≡ is_sought sought tank command.now }
{
    match sought {
        Sought::Gauging => is_gauging_of(tank, command),
        Sought::Sample => is_sample_of(tank, command),
        Sought::Settlement => settles(tank, command),
    }
}

/// Whether a command is a gauge's reading or a dip of a tank.
pub fn is_gauging_of(tank: u16, command: &Command) -> bool
    ensures gauging { result ≡ is_gauging_of tank command.now }
{
    match command {
        Command::Gauge { tank: number, .. } | Command::Dip { tank: number, .. } => *number == tank,
        _ => false,
    }
}

/// Whether a command is a sample of a tank.
pub fn is_sample_of(tank: u16, command: &Command) -> bool
    ensures sample { result ≡ is_sample_of tank command.now }
{
    match command {
        Command::Sample { tank: number, .. } => *number == tank,
        _ => false,
    }
}

/// Whether a command settles the book of a tank.
pub fn settles(tank: u16, command: &Command) -> bool
    ensures settles { result ≡ settles tank command.now }
{
    match command {
        Command::Settle { tank: number, .. } => *number == tank,
        _ => false,
    }
}
