// One line of the call list: what it changes in the settings.
#![tactic(auto)]

use call_checking::perform;
use call_damage::put_entry;
use call_lending::{Lists, Settings, Tables, slice_of};
use call_list::Call;
use call_replies::show_state;
use call_rings::perform_rings;
use std::io;
use std::io::Write;
use tables::PlanarGraph;

// After a call: a short slice is for one call only.
fn called(settings: Settings, graph: PlanarGraph) -> Settings {
    Settings {
        graph,
        short: None,
        ..settings
    }
}

// The settings after a line; the state is printed and the tables are written here.
pub fn step<W: Write>(
    out: &mut W,
    call: Call,
    settings: Settings,
    tables: &mut Tables,
) -> io::Result<Settings> {
    let Tables { slices, lists } = tables;
    match call {
        Call::Graph(entry) => {
            let Lists { half_edges, rings } = lists;
            let graph = perform(out, entry, settings, slices, half_edges, rings)?;
            Ok(called(settings, graph))
        }
        Call::Rings => Ok(called(settings, perform_rings(out, settings, slices, lists)?)),
        Call::Show => {
            show_state(out, settings.graph, slices.share())?;
            Ok(settings)
        }
        Call::State(graph) => Ok(Settings { graph, ..settings }),
        Call::Set(table, place, number) => {
            if put_entry(slices, table, place, number).is_none() {
                writeln!(out, "unknown")?;
            }
            Ok(settings)
        }
        Call::Short(table) => Ok(Settings {
            short: slice_of(table),
            ..settings
        }),
        Call::List(length) => Ok(Settings { length, ..settings }),
        Call::Holes(holes) => Ok(Settings { holes, ..settings }),
        Call::Unknown => {
            writeln!(out, "unknown")?;
            Ok(settings)
        }
        Call::Blank | Call::Comment => Ok(settings),
    }
}
