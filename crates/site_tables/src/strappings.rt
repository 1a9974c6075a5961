//! Strappings of a site.

ghost use Rattle.std.specs.Prelude.{◌≡◌, [], map, option_map, MatchResult, Ok, IfErr};
ghost use Rattle.toml.specs.View.{view};
ghost use Rattle.farm_base.specs.Steps.{IsRefusedAs};
ghost use Rattle.strap_courses.specs.Faults as strap;
ghost use Rattle.site_keys.specs.Faults.{IsNotTheFolders, reported};
ghost use Rattle.strap_courses.specs.Rows.{strapped_rows};
ghost use Rattle.site_keys.specs.Lists.{read_from};
ghost use Rattle.site_tables.specs.Strappings.{bottom_at, course_of, courses_at, deadwood_of, deadwoods_at, deductions_at, height_at, length_at, length_or_none, level_of, parts_of, point_of, point_of_pair, rows_read, strap_fault, strapped_file, table_of_strapping, thicknesses_at};

use crate::tables::table_of_rows;
use farm_fixed::{Deci, MOST_HEIGHT, Mm, TenthMillimetre};
use farm_rounding::RoundTable;
use site_keys::{FIELD, Keys, RANGE, STRAP, SiteFault, SiteReadFault, bad, bad_at, toml_of};
use std::alloc::Global;
use strap_courses::{Course, Deadwood, StrapFault, Strapping};
use strap_table::CapTable;
use toml::Value;

/// The capacity table of a strapping file: courses, deadwoods and a bottom.
#[tactic(auto, unfolding(crate::specs::Strappings::strapped_file))]
pub fn strapped_file(
    alloc: Global,
    item: u32,
    rounding: &RoundTable,
    bytes: &[u8],
) -> Result<CapTable, SiteReadFault>
    ensures table { MatchResult result (λ table. strapped_file item rounding.now bytes.now ≡ Ok table)
        (λ fault. IsRefusedAs (reported fault) (strapped_file item rounding.now bytes.now)) }
    ensures not_the_folders { IfErr result IsNotTheFolders }
{
    let table = toml_of(alloc, item, bytes)?;
    table_of_strapping(
        alloc,
        rounding,
        &Keys {
            item,
            table: &table,
        },
    )
}

// The capacity table of a strapping's keys.
#[tactic(auto, unfolding(crate::specs::Strappings::table_of_strapping, crate::specs::Strappings::parts_of))]
fn table_of_strapping(
    alloc: Global,
    rounding: &RoundTable,
    keys: &Keys<'_>,
) -> Result<CapTable, SiteReadFault>
    ensures table { MatchResult result (λ table. table_of_strapping rounding.now keys.now ≡ Ok table)
        (λ fault. IsRefusedAs (reported fault) (table_of_strapping rounding.now keys.now)) }
    ensures not_the_folders { IfErr result IsNotTheFolders }
{
    let courses = courses_at(alloc, keys)?;
    let deadwoods = deadwoods_at(alloc, keys)?;
    let bottom = bottom_at(alloc, keys)?;
    let tank = match Strapping::new(courses, deadwoods, bottom) {
        Ok(tank) => tank,
        Err(fault) => return Err(strap_refused(keys.item, fault)),
    };
    table_of_tank(alloc, keys.item, rounding, &tank)
}

// The capacity table of a strapped tank.
fn table_of_tank(
    alloc: Global,
    item: u32,
    rounding: &RoundTable,
    tank: &Strapping,
) -> Result<CapTable, SiteReadFault>
    ensures table { MatchResult result (λ table. rows_read item (strapped_rows rounding.now tank.now) ≡ Ok table)
        (λ fault. IsRefusedAs (reported fault) (rows_read item (strapped_rows rounding.now tank.now))) }
    ensures not_the_folders { IfErr result IsNotTheFolders }
{
    match tank.rows(alloc, rounding) {
        Ok(rows) => Ok(table_of_rows(item, rows)?),
        Err(fault) => Err(strap_refused(item, fault)),
    }
}

// How the refusal of a strapping is reported.
fn strap_refused(item: u32, fault: StrapFault) -> SiteReadFault
    ensures fault { reported result ≡ option_map (strap_fault item) (strap.reported fault) }
    ensures not_the_folders { IsNotTheFolders result }
{
    match fault {
        StrapFault::NoCourse | StrapFault::TooTall => bad(STRAP, item).into(),
        StrapFault::BadCourse(n)
        | StrapFault::BadDeadwood(n)
        | StrapFault::BadBottom(n)
        | StrapFault::NotRising(n)
        | StrapFault::TooLarge(n) => bad_at(STRAP, item, n).into(),
        StrapFault::NoMemory => SiteReadFault::NoMemory,
    }
}

// The courses.
#[tactic(auto, unfolding(crate::specs::Strappings::courses_at))]
fn courses_at(alloc: Global, keys: &Keys<'_>) -> Result<Vec<Course>, SiteReadFault>
    ensures courses { MatchResult result (λ list. courses_at keys.now ≡ Ok list.items)
        (λ fault. IsRefusedAs (reported fault) (courses_at keys.now)) }
    ensures not_the_folders { IfErr result IsNotTheFolders }
{
    let values = keys.array_or_none("course")?;
    let mut courses = Vec::new(alloc);
    for table in values {
        courses.push(course_of(&Keys {
            item: keys.item,
            table,
        })?)?;
    }
    Ok(courses)
}

// The deadwoods.
#[tactic(auto, unfolding(crate::specs::Strappings::deadwoods_at))]
fn deadwoods_at(alloc: Global, keys: &Keys<'_>) -> Result<Vec<Deadwood>, SiteReadFault>
    ensures deadwoods { MatchResult result (λ list. deadwoods_at keys.now ≡ Ok list.items)
        (λ fault. IsRefusedAs (reported fault) (deadwoods_at keys.now)) }
    ensures not_the_folders { IfErr result IsNotTheFolders }
{
    let values = keys.array_or_none("deadwood")?;
    let mut deadwoods = Vec::new(alloc);
    for table in values {
        deadwoods.push(deadwood_of(&Keys {
            item: keys.item,
            table,
        })?)?;
    }
    Ok(deadwoods)
}

// The bottom: a flat one where the array is missing.
#[tactic(auto, unfolding(crate::specs::Strappings::bottom_at))]
fn bottom_at(alloc: Global, keys: &Keys<'_>) -> Result<Vec<(Mm, i64)>, SiteReadFault>
    ensures points { MatchResult result (λ list. bottom_at keys.now ≡ Ok list.items)
        (λ fault. IsRefusedAs (reported fault) (bottom_at keys.now)) }
    ensures not_the_folders { IfErr result IsNotTheFolders }
{
    if !keys.has("bottom") {
        return Ok(vec![in alloc; (Mm::in_range(0), 0)]?);
    }
    let values = keys.array("bottom")?;
    points_of(alloc, keys.item, values)
}

// The points of a bottom.
fn points_of(alloc: Global, item: u32, values: &[Value]) -> Result<Vec<(Mm, i64)>, SiteReadFault>
    ensures points { MatchResult result (λ list. read_from (point_of item) [] (map view values.now) ≡ Ok list.items)
        (λ fault. IsRefusedAs (reported fault) (read_from (point_of item) [] (map view values.now))) }
    ensures not_the_folders { IfErr result IsNotTheFolders }
{
    let mut points = Vec::new(alloc);
    for value in values {
        points.push(point_of(item, value)?)?;
    }
    Ok(points)
}

// A course.
#[tactic(auto, unfolding(crate::specs::Strappings::course_of))]
fn course_of(keys: &Keys<'_>) -> Result<Course, SiteFault>
    ensures course { result ≡ course_of keys.now }
{
    let height = height_at(keys, "height")?;
    let lower = length_at(keys, "lower")?;
    let upper = length_at(keys, "upper")?;
    let (lower_off, upper_off) = deductions_at(keys)?;
    let (plate, paint) = thicknesses_at(keys)?;
    Ok(Course {
        height,
        lower,
        upper,
        lower_off,
        upper_off,
        plate,
        paint,
    })
}

// What is deducted of the lower and of the upper circumference.
#[tactic(auto, unfolding(crate::specs::Strappings::deductions_at))]
fn deductions_at(keys: &Keys<'_>) -> Result<(Deci, Deci), SiteFault>
    ensures deductions { result ≡ deductions_at keys.now }
{
    let lower = length_or_none(keys, "lower_deduction")?;
    let upper = length_or_none(keys, "upper_deduction")?;
    Ok((lower, upper))
}

// The thicknesses of the plate and of the paint.
#[tactic(auto, unfolding(crate::specs::Strappings::thicknesses_at))]
fn thicknesses_at(keys: &Keys<'_>) -> Result<(Deci, Deci), SiteFault>
    ensures thicknesses { result ≡ thicknesses_at keys.now }
{
    let plate = length_or_none(keys, "plate")?;
    let paint = length_or_none(keys, "paint")?;
    Ok((plate, paint))
}

// A deadwood.
#[tactic(auto, unfolding(crate::specs::Strappings::deadwood_of))]
fn deadwood_of(keys: &Keys<'_>) -> Result<Deadwood, SiteFault>
    ensures deadwood { result ≡ deadwood_of keys.now }
{
    let low = height_at(keys, "low")?;
    let high = height_at(keys, "high")?;
    let litres = keys.integer("litres")?;
    Ok(Deadwood { low, high, litres })
}

// A deduction or a thickness; where it is missing, none.
#[tactic(auto, unfolding(crate::specs::Strappings::length_or_none))]
fn length_or_none(keys: &Keys<'_>, key: &str) -> Result<Deci, SiteFault>
    ensures length { result ≡ length_or_none keys.now key.now }
{
    if !keys.has(key) {
        return Ok(Deci::in_range(0));
    }
    length_at(keys, key)
}

// A circumference, a deduction or a thickness.
#[tactic(auto, unfolding(crate::specs::Strappings::length_at))]
fn length_at(keys: &Keys<'_>, key: &str) -> Result<Deci, SiteFault>
    ensures length { result ≡ length_at keys.now key.now }
{
    keys.quantity::<TenthMillimetre>(key)
}

// A height.
#[tactic(auto, unfolding(crate::specs::Strappings::height_at))]
fn height_at(keys: &Keys<'_>, key: &str) -> Result<Mm, SiteFault>
    ensures height { result ≡ height_at keys.now key.now }
{
    let height = keys.whole(key, 0, MOST_HEIGHT)?;
    Ok(Mm::in_range(i128::from(height)))
}

// A point of a bottom.
#[tactic(auto, unfolding(crate::specs::Strappings::point_of))]
fn point_of(item: u32, value: &Value) -> Result<(Mm, i64), SiteFault>
    ensures point { result ≡ point_of item (view value.now) }
{
    match value.as_array() {
        Some(pair) => point_of_pair(item, pair.as_slice()),
        None => Err(bad(FIELD, item)),
    }
}

// A point of a bottom, as a pair of a height and litres.
fn point_of_pair(item: u32, pair: &[Value]) -> Result<(Mm, i64), SiteFault>
    ensures point { result ≡ point_of_pair item (map view pair.now) }
{
    let [height, litres] = pair else {
        return Err(bad(FIELD, item));
    };
    let height = level_of(item, height)?;
    match litres.as_integer() {
        Some(litres) => Ok((height, litres)),
        None => Err(bad(FIELD, item)),
    }
}

// The height of a point.
#[tactic(auto, unfolding(crate::specs::Strappings::level_of))]
fn level_of(item: u32, value: &Value) -> Result<Mm, SiteFault>
    ensures height { result ≡ level_of item (view value.now) }
{
    let Some(height) = value.as_integer() else {
        return Err(bad(FIELD, item));
    };
    match Mm::new(height) {
        Ok(height) => Ok(height),
        Err(_) => Err(bad(RANGE, item)),
    }
}
