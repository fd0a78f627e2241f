//! Runs a part of the program over texts of a size, or each part over small ones, so that `bench/run` can count its
//! instructions.
//! usage: bench [PART [SIZE [NAME]]]
#![tactic(auto)]

mod phase;
mod printing;
mod productions;
mod samples;
mod scanning;
mod translations;
mod windows;

use crate::samples::is_wanted;
use std::{env, io};

/// A part of the program that is measured by itself.
#[derive(Clone, Copy)]
enum Part {
    Scanning,
    Windows,
    Productions,
    Translations,
    Phase,
    Printing,
}

const PARTS: [Part; 6] = [
    Part::Scanning,
    Part::Windows,
    Part::Productions,
    Part::Translations,
    Part::Phase,
    Part::Printing,
];

impl Part {
    fn name(self) -> &'static str {
        match self {
            Part::Scanning => "scanning",
            Part::Windows => "windows",
            Part::Productions => "productions",
            Part::Translations => "translations",
            Part::Phase => "phase",
            Part::Printing => "printing",
        }
    }

    /// Runs the part, where it has samples over the one of a name, or over each.
    fn run(self, rt: HostRuntime, size: Option<usize>, only: Option<&str>) -> io::Result<()> {
        match self {
            Part::Scanning => scanning::run(rt, size, only),
            Part::Windows => windows::run(rt),
            Part::Productions => productions::run(rt, size),
            Part::Translations => translations::run(rt, size, only),
            Part::Phase => phase::run(rt, size, only),
            Part::Printing => printing::run(rt, size),
        }
    }
}

fn main(rt: HostRuntime) -> io::Result<()> {
    let mut words = env::args(&rt)?.skip(1);
    let word = words.next();
    let size = match words.next() {
        Some(digits) => digits.parse().ok(),
        None => None,
    };
    let only = words.next();
    for part in PARTS {
        if is_wanted(word.as_deref(), part.name()) {
            part.run(rt, size, only.as_deref())?;
        }
    }
    Ok(())
}
