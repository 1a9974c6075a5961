//! Courses of a desk on a disk whose calls fail, as rows.

use crate::commands::{Asked, Eighth, reply_to};
use crate::images::{Images, LIMIT, Left, Reopened, check_images};
use crate::unfailing::{Told, ask, desk_on, told_desk};
use farm_desk::{Answer, Desk};
use farm_disk::{Disk, MemDisk, Stand};
use farm_history::Entry;
use std::alloc::Global;
use std::test::Fail;
use test_checks::Checks;

// How many calls of the disk a desk takes that is recovered with its seven entries: a sync and a read.
const CALLS_BEFORE: u64 = 2;

// The moment that the disk stands at then: a sync takes two.
const MOMENT_BEFORE: u64 = 2;

/// What is asked; whether it is answered, and not by a fault of the disk; how many entries there are then; and whether the last one is
/// in doubt.
pub type Step = (Asked, bool, usize, bool);

/// A course of a desk with seven entries.
#[derive(Clone, Copy)]
pub struct Course {
    /// Its name.
    pub name: &'static str,
    /// The calls of the disk that fail, counted from the next one.
    pub fails: &'static [u64],
    /// What is asked, one after another.
    pub steps: &'static [Step],
    /// Whether an entry is in doubt at the end, after its gate was tried once more.
    pub doubt: bool,
    /// What the images are recovered as, from the moment before the first step to the last moment of all.
    pub images: Images,
}

/// The seven entries.
pub const OLD: Left = [Reopened::Entries(7); 3];

/// The seven, or eight if anything of the write of the eighth's gate is left.
pub const OLD_OR_EIGHT: Left = [
    Reopened::Entries(7),
    Reopened::Entries(8),
    Reopened::Entries(8),
];

/// Eight entries.
pub const EIGHT: Left = [Reopened::Entries(8); 3];

/// Eight, or nine if anything of the write of the ninth's gate is left.
pub const EIGHT_OR_NINE: Left = [
    Reopened::Entries(8),
    Reopened::Entries(9),
    Reopened::Entries(9),
];

/// Nine entries.
pub const NINE: Left = [Reopened::Entries(9); 3];

// The answer that a step expects.
fn answer_of(told: &Told, asked: Asked, done: bool) -> Answer {
    if done {
        Answer::Done(reply_to(told.eighth, asked, told.reply))
    } else {
        Answer::DiskFault
    }
}

// What is asked.
fn met(told: &Told, asked: Asked) -> Asked {
    match asked {
        Asked::Met => told.met,
        asked => asked,
    }
}

// One step goes as its row says.
fn check_step<R: Print>(
    checks: &mut Checks<'_, R>,
    desk: &mut Desk<MemDisk, LIMIT>,
    told: &Told,
    name: (&str, usize),
    step: &Step,
) {
    let (asked, done, entries, doubt) = *step;
    let asked = met(told, asked);
    let answer = ask(desk, told.eighth, asked);
    let came = (
        name,
        asked,
        answer,
        desk.book().entries().len(),
        desk.doubt(),
    );
    let wanted = (name, asked, answer_of(told, asked, done), entries, doubt);
    checks.same(came, wanted);
}

// How many steps are answered by a fault of the disk.
fn faults_of(steps: &[Step]) -> u64 {
    let mut faults: u64 = 0;
    for (_, done, _, _) in steps {
        if !*done {
            faults = faults.saturating_add(1);
        }
    }
    faults
}

// The steps go as their rows say, and the desk counts their faults.
fn check_steps<R: Print>(
    checks: &mut Checks<'_, R>,
    desk: &mut Desk<MemDisk, LIMIT>,
    told: &Told,
    course: &Course,
) {
    for (index, step) in course.steps.iter().enumerate() {
        check_step(checks, desk, told, (course.name, index), step);
    }
    checks.same_at(course.name, desk.failed(), faults_of(course.steps));
}

// The images of the disk that is left are as their rows say, and the last of these is the last moment.
fn check_left<R: Print>(
    checks: &mut Checks<'_, R>,
    alloc: Global,
    disk: &MemDisk,
    entered: &[Entry],
    course: &Course,
) -> Result<(), Fail> {
    let next = check_images(
        checks,
        alloc,
        course.name,
        disk,
        MOMENT_BEFORE,
        course.images,
        entered,
    )?;
    let stand = Stand {
        moment: next.saturating_sub(1),
        faults: faults_of(course.steps).saturating_add(u64::from(course.doubt)),
    };
    checks.same_at(course.name, disk.stand(), stand);
    Ok(())
}

// The desk ends as its row says.
fn check_end<R: Print>(
    checks: &mut Checks<'_, R>,
    alloc: Global,
    desk: Desk<MemDisk, LIMIT>,
    told: &Told,
    course: &Course,
) -> Result<(), Fail> {
    let (disk, doubt) = desk.finish();
    checks.same_at(course.name, doubt, course.doubt);
    let checked = check_left(checks, alloc, &disk, told.entries(), course);
    drop(disk);
    checked
}

// The numbers of the calls that fail, counted from the disk's first call.
fn calls_of(alloc: Global, course: &Course) -> Result<Vec<u64>, Fail> {
    let mut calls = Vec::new(alloc);
    for call in course.fails {
        calls.push(call.saturating_add(CALLS_BEFORE))?;
    }
    Ok(calls)
}

// A course goes as its row says.
fn check_course<R: Print>(
    checks: &mut Checks<'_, R>,
    alloc: Global,
    told: &Told,
    course: &Course,
) -> Result<(), Fail> {
    let calls = calls_of(alloc, course)?;
    let desk = desk_on(alloc, &told.before, &calls);
    drop(calls);
    let mut desk = desk?;
    check_steps(checks, &mut desk, told, course);
    check_end(checks, alloc, desk, told, course)
}

// Courses go as their rows say.
fn check_each<R: Print>(
    checks: &mut Checks<'_, R>,
    alloc: Global,
    told: &Told,
    courses: &[Course],
) -> Result<(), Fail> {
    for course in courses {
        check_course(checks, alloc, told, course)?;
    }
    Ok(())
}

/// Courses go as their rows say, with a gauge's reading and with the closing of a transfer as the eighth command.
pub(crate) fn check_courses<R: Print>(
    checks: &mut Checks<'_, R>,
    alloc: Global,
    met: Asked,
    courses: &[Course],
) -> Result<(), Fail> {
    for eighth in [Eighth::Gauge, Eighth::Closing] {
        let told = told_desk(alloc, eighth, met)?;
        let checked = check_each(checks, alloc, &told, courses);
        drop(told);
        checked?;
    }
    Ok(())
}
