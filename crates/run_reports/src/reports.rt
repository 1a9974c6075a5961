//! The statuses of a run whose output, disk or journal fails, and the lines that report them; and that of a run that did all.

ghost use Rattle.std.specs.Prelude.{◌≡◌, ◌≤◌, MatchResult};
ghost use Rattle.run_reports.specs.NoDesks.{NotRecovered};
ghost use Rattle.run_reports.specs.Reports.{Delivers, LacksMemory, Puts, Refuses, output_of};
ghost use Rattle.run_reports.specs.Texts.{disk_fault_line, port_fault_line};

use crate::texts::{
    DISK_FAULT_LINE, NO_MEMORY_LINE, NOT_A_JOURNAL_LINE, PORT_FAULT_LINE, journal_damaged_text,
};
use farm_base::NoMemory;
use farm_desk::RecoverFault;
use farm_ports::{Sink, put_all};
use std::alloc::Global;

/// What was asked for was done, and printed whole.
pub const DONE: u8 = 0;
/// The disk has bytes, and a journal was to be made on it, or it has no whole journal.
pub const JOURNAL_REFUSED: u8 = 3;
/// The disk failed.
pub const DISK_FAILED: u8 = 5;
/// The input, the output or the folder failed.
pub const PORT_FAILED: u8 = 6;
/// Memory ran out.
pub const OUT_OF_MEMORY: u8 = 7;

/// Puts an answer.
pub fn deliver<K: Sink>(output: &mut K, text: &[u8]) -> u8
    ensures delivers { Delivers (output_of K.held K.faults output.old output.new) text.now result }
    ensures never_falls { K.faults output.old ≤ K.faults output.new }
{
    match put_all(output, text) {
        Ok(()) => DONE,
        Err(_) => report_fault(output),
    }
}

/// Puts the line of a status, and answers that status. A failing output changes nothing: the status stands all the same.
pub fn say<K: Sink>(text: &[u8], status: u8, output: &mut K) -> u8
    ensures status { result ≡ status }
    ensures puts { Puts (output_of K.held K.faults output.old output.new) text.now }
    ensures never_falls { K.faults output.old ≤ K.faults output.new }
{
    let _ = put_all(output, text);
    status
}

/// Puts the line of a refusal, if there was memory for it, and answers its status.
pub fn refuse<K: Sink>(text: Result<Vec<u8>, NoMemory>, status: u8, output: &mut K) -> u8
    ensures refuses { MatchResult text (λ text. Refuses (output_of K.held K.faults output.old output.new) status text.items result)
        (λ _. LacksMemory (output_of K.held K.faults output.old output.new) result) }
    ensures never_falls { K.faults output.old ≤ K.faults output.new }
{
    match text {
        Ok(text) => say(&text, status, output),
        Err(_) => report_no_memory(output),
    }
}

/// Reports that there was no memory, with status 7. If that can't be put the output failed, which is the lesser status, 6.
pub fn report_no_memory<K: Sink>(output: &mut K) -> u8
    ensures lacks_memory { LacksMemory (output_of K.held K.faults output.old output.new) result }
    ensures never_falls { K.faults output.old ≤ K.faults output.new }
{
    match put_all(output, NO_MEMORY_LINE) {
        Ok(()) => OUT_OF_MEMORY,
        Err(_) => report_fault(output),
    }
}

/// Reports that a port failed, as far as the output takes it.
pub fn report_fault<K: Sink>(output: &mut K) -> u8
    ensures status { result ≡ 6 }
    ensures puts { Puts (output_of K.held K.faults output.old output.new) port_fault_line }
    ensures never_falls { K.faults output.old ≤ K.faults output.new }
{
    say(PORT_FAULT_LINE, PORT_FAILED, output)
}

/// Reports that the disk failed, as far as the output takes it.
pub fn report_disk_fault<K: Sink>(output: &mut K) -> u8
    ensures status { result ≡ 5 }
    ensures puts { Puts (output_of K.held K.faults output.old output.new) disk_fault_line }
    ensures never_falls { K.faults output.old ≤ K.faults output.new }
{
    say(DISK_FAULT_LINE, DISK_FAILED, output)
}

/// Reports why a journal wasn't recovered.
pub fn report_recover<K: Sink>(alloc: Global, fault: RecoverFault, output: &mut K) -> u8
    ensures reports { NotRecovered fault (output_of K.held K.faults output.old output.new) result }
    ensures never_falls { K.faults output.old ≤ K.faults output.new }
{
    match fault {
        RecoverFault::NotJournal => say(NOT_A_JOURNAL_LINE, JOURNAL_REFUSED, output),
        RecoverFault::Damaged(place) => {
            refuse(journal_damaged_text(alloc, place), JOURNAL_REFUSED, output)
        }
        RecoverFault::DiskFault => report_disk_fault(output),
        RecoverFault::NoMemory => report_no_memory(output),
    }
}
