//! Runs the cases of the table on its standard input, over devices in memory, and prints what each run
//! wrote and how it ended. The head of the table says how it is written.
#![tactic(auto)]

mod case;
mod pieces;
mod row;
mod table;
mod text;

use crate::table::Table;
use std::io;

fn main(rt: HostRuntime) -> anyhow::Result<()> {
    let text = io::read_to_string(rt.alloc(), rt.reader())?;
    let mut out = io::writer(&rt);
    let mut table = Table::new(rt.alloc());
    for (index, line) in text.as_str().lines().enumerate() {
        table.take(line, index, &mut out)?;
    }
    table.end(&mut out)
}
