//! The gauge lines of a site file: a device each, by its host and port.

ghost use Rattle.std.specs.Prelude.{◌≡◌, ◌≤◌, ◌++◌, [], length, map, MatchResult, IfOk, Ok, IsTrue, IfErr};
ghost use Rattle.std.specs.List.{list_all};
ghost use Rattle.toml.specs.View.{view};
ghost use Rattle.gauge_maps.specs.Maps.{is_host, is_line_map};
ghost use Rattle.farm_base.specs.Steps.{IsRefusedAs};
ghost use Rattle.site_keys.specs.Faults.{IsNotTheFolders, reported};
ghost use Rattle.farm_site.specs.Lines.{are_gauged, tanks_gauged, all_gauged, are_lines};
ghost use Rattle.site_lines.specs.Lines.{host_at, line_of, lines_from, lines_of};

use crate::gauges::gauges_from;
use farm_site::{MOST_LINES, Numbered, is_host};
use gauge_maps::{Gauges, Host, LineMap, MOST_GAUGES, MOST_PORT};
use site_keys::{Keys, RANGE, SiteReadFault, bad, list_at};
use std::alloc::Global;
use toml::Value;

/// The gauge lines of the site, in the order of the file. Each gauge is on one of these tanks, and no two are on one.
#[tactic(auto, unfolding(crate::specs::Lines::lines_of))]
pub fn lines_of<T: Numbered>(
    alloc: Global,
    tanks: &[T],
    top: &Keys<'_>,
) -> Result<Vec<LineMap>, SiteReadFault>
    ensures lines { MatchResult result (λ lines. lines_of (map T.numbered tanks.now) top.now ≡ Ok lines.items)
        (λ fault. IsRefusedAs (reported fault) (lines_of (map T.numbered tanks.now) top.now)) }
    ensures sound { IfOk result (λ lines. IsTrue (are_lines (map T.numbered tanks.now) lines.items)) }
    ensures not_the_folders { IfErr result IsNotTheFolders }
{
    let tables = list_at(top, "line", 0, MOST_LINES)?;
    let mut gauged = Vec::new(alloc);
    lines_from(alloc, tanks, &mut gauged, tables)
}

// The lines of tables, after lines with gauges on some tanks.
fn lines_from<T: Numbered>(
    alloc: Global,
    tanks: &[T],
    gauged: &mut Vec<u16>,
    tables: &[Value],
) -> Result<Vec<LineMap>, SiteReadFault>
    requires count { length tables.now ≤ MOST_LINES }
    requires tanks { IsTrue (are_gauged (map T.numbered tanks.now) gauged.old.items) }
    ensures lines { MatchResult result (λ lines. lines_from (map T.numbered tanks.now) 1 gauged.old.items [] (map view tables.now) ≡ Ok lines.items)
        (λ fault. IsRefusedAs (reported fault) (lines_from (map T.numbered tanks.now) 1 gauged.old.items [] (map view tables.now))) }
    ensures count { IfOk result (λ lines. length lines.items ≡ length tables.now) }
    ensures sound { IfOk result (λ lines. IsTrue (list_all is_line_map lines.items)) }
    ensures gauged { IfOk result (λ lines. gauged.new.items ≡ gauged.old.items ++ all_gauged lines.items) }
    ensures tanks { IfOk result (λ _. IsTrue (are_gauged (map T.numbered tanks.now) gauged.new.items)) }
    ensures not_the_folders { IfErr result IsNotTheFolders }
{
    let mut lines = Vec::new(alloc);
    for (index, table) in tables.iter().enumerate() {
        let item = index as u32 + 1;
        let line = line_of(alloc, tanks, gauged, &Keys { item, table })?;
        lines.push(line)?;
    }
    Ok(lines)
}

// The line of a table, after lines with gauges on some tanks.
#[tactic(auto, unfolding(crate::specs::Lines::line_of))]
fn line_of<T: Numbered>(
    alloc: Global,
    tanks: &[T],
    gauged: &mut Vec<u16>,
    keys: &Keys<'_>,
) -> Result<LineMap, SiteReadFault>
    requires { IsTrue (are_gauged (map T.numbered tanks.now) gauged.old.items) }
    ensures line { MatchResult result (λ line. line_of (map T.numbered tanks.now) gauged.old.items keys.now ≡ Ok line)
        (λ fault. IsRefusedAs (reported fault) (line_of (map T.numbered tanks.now) gauged.old.items keys.now)) }
    ensures gauged { IfOk result (λ line. gauged.new.items ≡ gauged.old.items ++ tanks_gauged line.gauges) }
    ensures sound { IfOk result (λ line. IsTrue (is_line_map line)) }
    ensures tanks { IfOk result (λ _. IsTrue (are_gauged (map T.numbered tanks.now) gauged.new.items)) }
    ensures not_the_folders { IfErr result IsNotTheFolders }
{
    let host = host_at(alloc, keys)?;
    let port = keys.natural("port", 1, MOST_PORT as u32)? as u16;
    let tables = list_at(keys, "gauge", 1, MOST_GAUGES)?;
    let gauges = gauges_from(alloc, keys.item, tanks, gauged, tables)?;
    Ok(LineMap {
        host,
        port,
        gauges: Gauges::new(gauges),
    })
}

// A host.
#[tactic(auto, unfolding(crate::specs::Lines::host_at))]
fn host_at(alloc: Global, keys: &Keys<'_>) -> Result<Host, SiteReadFault>
    ensures host { MatchResult result (λ host. host_at keys.now ≡ Ok host)
        (λ fault. IsRefusedAs (reported fault) (host_at keys.now)) }
    ensures sound { IfOk result (λ host. IsTrue (is_host host)) }
    ensures not_the_folders { IfErr result IsNotTheFolders }
{
    let host = keys.text("host")?;
    if !is_host(host.as_bytes()) {
        return Err(bad(RANGE, keys.item).into());
    }
    Ok(Host::new(host.as_bytes().to_vec(alloc)?))
}
