//! Compares the manual's page of services, `services.md` in the folder that it runs in, with the table of
//! properties that `melt` reads words by: it prints each row of a property that the page lacks, and nothing
//! where all are there.
#![tactic(auto)]

use mlt_base::Name;
use mlt_tree::Property;
use mlt_tree::services::PROPERTIES;
use std::alloc::{AllocError, Global};
use std::{fs, io};

/// A name of the table as a text.
fn text_of(name: &Name) -> &str {
    str::from_utf8(name.as_bytes()).unwrap_or("?")
}

/// How the manual's row of a property begins: its name, its value, and its default where the table has it.
fn row_of(alloc: Global, property: &Property) -> Result<String, AllocError> {
    match property {
        Property::Count(row) => {
            let (name, low, high) = (text_of(&row.name), row.low, row.high);
            let default = row.default;
            format!(in alloc; "| `{name}` | a whole number, {low} to {high} | {default} |")
        }
        Property::Number(row) => {
            let (name, low, high) = (text_of(&row.name), row.low, row.high);
            format!(in alloc; "| `{name}` | a whole number, {low} to {high} |")
        }
        Property::Distance(row) => {
            let (name, high) = (text_of(&row.name), row.high);
            format!(in alloc; "| `{name}` | a whole number, -{high} to {high} | 0 |")
        }
        Property::Choice(row) => {
            let (first, second) = (text_of(&row.first), text_of(&row.second));
            let name = text_of(&row.name);
            format!(in alloc; "| `{name}` | `{first}` or `{second}` | `{first}` |")
        }
        Property::Animated(row) => {
            let (name, default) = (text_of(&row.name), text_of(&row.default));
            format!(in alloc; "| `{name}` | a number that may change | `{default}` |")
        }
        Property::Letters(row) => {
            let (name, default) = (text_of(&row.name), text_of(&row.default));
            format!(in alloc; "| `{name}` | four letters of `r`, `g`, `b`, `a` | `{default}` |")
        }
        Property::Moment(row) => {
            let name = text_of(&row.name);
            format!(in alloc; "| `{name}` | a time |")
        }
        Property::Share(row) => {
            let name = text_of(&row.name);
            format!(in alloc; "| `{name}` | a number from 0 to 1 | 0 |")
        }
        Property::FileName(row) => {
            let name = text_of(&row.name);
            format!(in alloc; "| `{name}` | the name of a file |")
        }
        Property::Area(row) => {
            let (name, default) = (text_of(&row.name), text_of(&row.default));
            format!(in alloc; "| `{name}` | a geometry | `{default}` |")
        }
    }
}

/// Whether the page has a line that begins so, below the heading that ends with this.
fn has_row(page: &str, heading: &str, row: &str) -> bool {
    let mut below = false;
    for line in page.lines() {
        if line.starts_with("## ") {
            below = line.ends_with(heading);
        } else if below && line.starts_with(row) {
            return true;
        }
    }
    false
}

fn main(rt: HostRuntime) -> io::Result<()> {
    let alloc = rt.alloc();
    let page = fs::read_to_string(&rt, "services.md")?;
    for (service, properties) in PROPERTIES {
        let heading = format!(in alloc; "`{service}`")?;
        for property in *properties {
            let row = row_of(alloc, property)?;
            if !has_row(page.as_str(), heading.as_str(), row.as_str()) {
                println!(rt; "{service}: {row}")?;
            }
        }
    }
    Ok(())
}
