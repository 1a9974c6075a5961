//! How an entry is written as bytes.

ghost use Rattle.std.specs.Prelude.{◌≡◌, ◌+◌, ◌<◌, ◌≤◌, ◌^◌, [], ◌∷◌, ◌++◌, length, FitsSigned, OnErr, vec_capacity, vec_len};
ghost use Rattle.std.specs.Int.{w16, w32, w64, to_be_bytes};
ghost use Rattle.farm_base.specs.Appended.{Appends};
ghost use Rattle.farm_history.specs.Commands.{IsShortList, IsWellFormedCommand};
ghost use Rattle.farm_history.specs.Encoding.{IsTyped, IsTypedCommand, IsTypedGauged, IsTypedList, IsTypedPlan, IsTypedSecond, command_bytes, entry_encoding, gauged_bytes, list_bytes, plan_bytes, second_bytes, signed_bytes, way_byte};
ghost use Rattle.farm_history.specs.History.{IsWellFormed};
ghost use Rattle.farm_history.specs.declared.limits.TheConstants.{MOST_ENTRY_BYTES};

mod written;

use crate::{Command, Entry, Few, Gauged, Plan};
use farm_base::NoMemory;
use farm_ticket::Way;
use written::Written;

impl Entry {
    /// Appends the entry's bytes, of which there are at most `MOST_ENTRY_BYTES`. It fails only where the buffer has no room for them.
    /// docs/formats.md has the format.
    pub fn write(&self, out: &mut Vec<u8>) -> Result<(), NoMemory>
        requires well_formed { IsWellFormed self.now }
        ensures appended { Appends out.old.items out.new.items (entry_encoding self.now) result }
        ensures no_room { OnErr result (vec_capacity out.old < vec_len out.old + length (entry_encoding self.now)) }
        ensures few { length (entry_encoding self.now) ≤ MOST_ENTRY_BYTES }
        ensures typed { IsTyped self.now }
    {
        let mut written = Written::new();
        self.put_stamp(&mut written);
        self.cmd.put(&mut written);
        out.extend_from_slice(written.get())?;
        Ok(())
    }

    // Writes the caller, the account, the key and the moment.
    fn put_stamp(&self, out: &mut Written)
        requires first { out.old ≡ [] }
        ensures stamp { out.new ≡ to_be_bytes w32 self.now.caller ++ to_be_bytes w32 self.now.account ++ to_be_bytes w64 self.now.key ++ signed_bytes self.now.at }
        ensures typed { (self.now.caller < 2 ^ 32) × (self.now.account < 2 ^ 32) × (self.now.key < 2 ^ 64) × FitsSigned w64 self.now.at }
    {
        out.push(&self.caller.to_be_bytes());
        out.push(&self.account.to_be_bytes());
        out.push(&self.key.to_be_bytes());
        out.push(&self.at.to_be_bytes());
    }
}

impl Command {
    // Writes the command after an entry's stamp.
    fn put(&self, out: &mut Written)
        requires well_formed { IsWellFormedCommand self.now }
        requires room { length out.old ≤ 24 }
        ensures command { out.new ≡ out.old ++ command_bytes self.now }
        ensures typed { IsTypedCommand self.now }
    {
        match self {
            Command::Gauge {
                tank,
                level,
                water,
                temperature,
                ambient,
            } => {
                put_tank(out, 1, *tank);
                out.push_numbers(&[*level, *water, *temperature, *ambient]);
            }
            Command::Dip {
                tank,
                outage,
                tapes,
                water,
                temperatures,
                ambient,
            } => put_dip(out, *tank, *outage, tapes, water, temperatures, *ambient),
            Command::Sample { tank, density, sw } => {
                put_tank(out, 3, *tank);
                out.push_numbers(&[*density, *sw]);
            }
            Command::Opening(plan) => put_plan(out, plan),
            Command::Closing {
                movement,
                first,
                second,
            } => put_closing(out, *movement, first, second),
            Command::Cancel { movement } => put_place(out, 6, *movement),
            Command::Settle { tank, gauged } => put_settle(out, *tank, gauged),
            Command::Reverse { ticket } => put_place(out, 8, *ticket),
            Command::Stop => out.push(&[9]),
        }
    }
}

// Writes a dip.
fn put_dip(
    out: &mut Written,
    tank: u16,
    outage: bool,
    tapes: &Few,
    water: &Few,
    temperatures: &Few,
    ambient: i64,
)
    requires tapes { IsShortList tapes.now }
    requires water { IsShortList water.now }
    requires temperatures { IsShortList temperatures.now }
    requires room { length out.old ≤ 24 }
    ensures dip { out.new ≡ out.old ++ command_bytes (Command.Dip tank outage tapes.now water.now temperatures.now ambient) }
    ensures typed { IsTypedCommand (Command.Dip tank outage tapes.now water.now temperatures.now ambient) }
{
    put_tank(out, 2, tank);
    out.push(&[u8::from(outage)]);
    put_list(out, tapes);
    put_list(out, water);
    put_list(out, temperatures);
    out.push_numbers(&[ambient]);
}

// Writes a Closing.
fn put_closing(out: &mut Written, movement: u32, first: &Gauged, second: &Option<Gauged>)
    requires room { length out.old ≤ 24 }
    ensures closing { out.new ≡ out.old ++ command_bytes (Command.Closing movement first.now second.now) }
    ensures typed { IsTypedCommand (Command.Closing movement first.now second.now) }
{
    put_place(out, 5, movement);
    put_gauged(out, first);
    put_second(out, second);
}

// Writes a Settle.
fn put_settle(out: &mut Written, tank: u16, gauged: &Gauged)
    requires room { length out.old ≤ 24 }
    ensures settle { out.new ≡ out.old ++ command_bytes (Command.Settle tank gauged.now) }
    ensures typed { IsTypedCommand (Command.Settle tank gauged.now) }
{
    put_tank(out, 7, tank);
    put_gauged(out, gauged);
}

// Writes the tag of a command and the number of its tank.
fn put_tank(out: &mut Written, tag: u8, tank: u16)
    requires room { length out.old + 3 ≤ MOST_ENTRY_BYTES }
    ensures tank { out.new ≡ out.old ++ (tag ∷ to_be_bytes w16 tank) }
    ensures typed { tank < 2 ^ 16 }
{
    out.push(&[tag]);
    out.push(&tank.to_be_bytes());
}

// Writes the count of a short list, and its numbers.
fn put_list(out: &mut Written, list: &Few)
    requires short { IsShortList list.now }
    requires room { length out.old + 65 ≤ MOST_ENTRY_BYTES }
    ensures at_most { length out.new ≤ length out.old + 65 }
    ensures list { out.new ≡ out.old ++ list_bytes list.now }
    ensures typed { IsTypedList list.now }
{
    out.push(&[list.count]);
    out.push_numbers(&list.values[..usize::from(list.count)]);
}

// Writes the tag of a command and a place.
fn put_place(out: &mut Written, tag: u8, place: u32)
    requires room { length out.old ≤ 24 }
    ensures place { out.new ≡ out.old ++ (tag ∷ to_be_bytes w32 place) }
    ensures typed { place < 2 ^ 32 }
{
    out.push(&[tag]);
    out.push(&place.to_be_bytes());
}

// Writes the tag of an Opening, and its plan.
fn put_plan(out: &mut Written, plan: &Plan)
    requires room { length out.old ≤ 24 }
    ensures plan { out.new ≡ out.old ++ (4 ∷ plan_bytes plan.now) }
    ensures typed { IsTypedPlan plan.now }
{
    match plan {
        Plan::Outside {
            way,
            tank,
            party,
            gauged,
        } => {
            put_way(out, way_byte(*way), *tank, *party);
            put_gauged(out, gauged);
        }
        Plan::Transfer {
            from,
            to,
            from_gauged,
            to_gauged,
        } => {
            put_way(out, 3, *from, *to);
            put_gauged(out, from_gauged);
            put_gauged(out, to_gauged);
        }
    }
}

// The byte of the way of a movement of one tank.
fn way_byte(way: Way) -> u8
    ensures way { result ≡ way_byte way }
{
    match way {
        Way::Inward => 1,
        Way::Outward => 2,
    }
}

// Writes the tag of an Opening, a way and two numbers.
fn put_way(out: &mut Written, way: u8, first: u16, second: u16)
    requires room { length out.old ≤ 24 }
    ensures way { out.new ≡ out.old ++ (4 ∷ way ∷ to_be_bytes w16 first ++ to_be_bytes w16 second) }
    ensures typed { (first < 2 ^ 16) × (second < 2 ^ 16) }
{
    out.push(&[4, way]);
    out.push(&first.to_be_bytes());
    out.push(&second.to_be_bytes());
}

// Writes a reading and a sample that are named.
fn put_gauged(out: &mut Written, gauged: &Gauged)
    requires room { length out.old ≤ 100 }
    ensures gauged { out.new ≡ out.old ++ gauged_bytes gauged.now }
    ensures typed { IsTypedGauged gauged.now }
{
    out.push(&gauged.reading.to_be_bytes());
    out.push(&gauged.sample.to_be_bytes());
}

// Writes what is named for a second tank, after a byte that says whether anything is.
fn put_second(out: &mut Written, second: &Option<Gauged>)
    requires room { length out.old ≤ 90 }
    ensures second { out.new ≡ out.old ++ second_bytes second.now }
    ensures typed { IsTypedSecond second.now }
{
    match second {
        None => out.push(&[0]),
        Some(gauged) => {
            out.push(&[1]);
            put_gauged(out, gauged);
        }
    }
}
