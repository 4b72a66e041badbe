// The three texts of a folder.
use plan::script::Entry;
use std::alloc::AllocError;
use std::fs;

#[derive(Drop)]
pub struct Texts {
    stations: Vec<u8>,
    lines: Vec<u8>,
    tree: Vec<u8>,
}

// A file that cannot be read counts as no bytes. The libraries reach no files, so each program has this.
fn file(rt: &HostRuntime, folder: &str, name: &str) -> Result<Vec<u8>, AllocError> {
    let path = format!(in rt.alloc(); "{folder}/{name}")?;
    Ok(fs::read(rt, path.as_str()).unwrap_or_else(|_| Vec::new(rt.alloc())))
}

impl Texts {
    pub fn read(rt: &HostRuntime, folder: &str) -> Result<Texts, AllocError> {
        Ok(Texts {
            stations: file(rt, folder, "stations.csv")?,
            lines: file(rt, folder, "lines.csv")?,
            tree: file(rt, folder, "tree.nwk")?,
        })
    }

    // The call that fills a plan from them.
    pub fn fill(&self) -> Entry<'_> {
        Entry::Fill {
            stations: self.stations.as_slice(),
            lines: self.lines.as_slice(),
            tree: self.tree.as_slice(),
        }
    }
}
