//! Specifications of lists.

use anyhow::{Result, bail};
use krl::{CaPart, Run, Runs};
use lines::read_key_line;
use std::alloc::Global;
use text::{Text, Texts};

/// What a list has to revoke.
#[derive(Drop)]
pub(crate) struct Specification {
    /// The serials under each CA.
    pub parts: Vec<CaPart>,
    /// The key ids, which apply to every CA.
    pub key_ids: Texts,
}

// One line.
#[derive(Clone, Copy)]
enum Line<'a> {
    // The CA of the serials that follow it.
    Ca([u8; 32]),
    Serials(Run),
    KeyId(&'a str),
}

// The lines read so far.
#[derive(Drop)]
struct Draft {
    sections: Vec<Section>,
    key_ids: Vec<Text>,
}

// The serials of one CA, in the order in which they were read.
#[derive(Drop)]
struct Section {
    ca: [u8; 32],
    runs: Vec<Run>,
}

/// The key of a public-key line.
pub(crate) fn read_key(alloc: Global, line: &str) -> Result<[u8; 32]> {
    match read_key_line(alloc, line.as_bytes()) {
        Ok(read) => Ok(read.key),
        Err(fault) => bail!("{fault:?}: {line}"),
    }
}

fn read_serials(word: &str) -> Result<Run> {
    let (lo, hi) = word.split_once('-').unwrap_or((word, word));
    Ok(Run {
        lo: lo.parse()?,
        hi: hi.parse()?,
    })
}

fn read_line(alloc: Global, line: &str) -> Result<Line<'_>> {
    match line.split_once(": ") {
        Some(("ca", key)) => Ok(Line::Ca(read_key(alloc, key)?)),
        Some(("serial", word)) => Ok(Line::Serials(read_serials(word)?)),
        Some(("id", key_id)) => Ok(Line::KeyId(key_id)),
        _ => bail!("no line of a specification: {line}"),
    }
}

impl Draft {
    fn add(&mut self, alloc: Global, line: Line<'_>) -> Result<()> {
        match line {
            Line::Ca(ca) => self.sections.push(Section {
                ca,
                runs: Vec::new(alloc),
            })?,
            Line::Serials(run) => {
                let Some(section) = self.sections.last_mut() else {
                    bail!("serials of no CA");
                };
                section.runs.push(run)?;
            }
            Line::KeyId(key_id) => self
                .key_ids
                .push(Text::from_vec(Vec::from_slice(alloc, key_id.as_bytes())?))?,
        }
        Ok(())
    }
}

fn parts_of(alloc: Global, sections: Vec<Section>) -> Result<Vec<CaPart>> {
    let mut parts = Vec::with_capacity(alloc, sections.len())?;
    for section in sections {
        let ca = section.ca;
        let Some(runs) = Runs::from_runs(section.runs) else {
            bail!("serials that touch or don't ascend");
        };
        parts.push(CaPart { ca, runs })?;
    }
    Ok(parts)
}

/// Reads a specification. The form is that of `ssh-keygen -k` except for the CAs: lines `ca: KEY` with a public-key
/// line, `serial: NUMBER` and `serial: NUMBER-NUMBER` for the CA before them, ascending with a gap between any two, and
/// `id: KEYID`.
pub(crate) fn read_specification(alloc: Global, text: &str) -> Result<Specification> {
    let mut draft = Draft {
        sections: Vec::new(alloc),
        key_ids: Vec::new(alloc),
    };
    for line in text.lines() {
        draft.add(alloc, read_line(alloc, line)?)?;
    }
    Ok(Specification {
        parts: parts_of(alloc, draft.sections)?,
        key_ids: Texts::from_vec(draft.key_ids),
    })
}
