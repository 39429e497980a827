// The files that this call has read, so that none of them is written over.
use files::FileIdentity;

// How a file was read: as the scenario, or by a line.
#[derive(Clone, Copy)]
pub enum ReadBy {
    Scenario,
    Line(u64),
}

#[derive(Clone, Copy)]
pub struct Entry {
    pub file: FileIdentity,
    pub by: ReadBy,
}

// A table with room for 1,024 files.
#[derive(Drop)]
pub struct FilesRead {
    pub entries: [Option<Entry>; 1024],
}

impl FilesRead {
    // How the file was read, if it was. One that is not known, as a file that is not there, was not.
    pub fn read_by(&self, file: Option<FileIdentity>) -> Option<ReadBy> {
        let file = file?;
        self.entries.iter().find_map(|entry| match entry {
            Some(entry) if entry.file == file => Some(entry.by),
            _ => None,
        })
    }

    // Whether the file is in the table then. One that is not known needs no place.
    pub fn keep(&mut self, file: Option<FileIdentity>, by: ReadBy) -> bool {
        let Some(known) = file else {
            return true;
        };
        if self.read_by(file).is_some() {
            return true;
        }
        for entry in self.entries.iter_mut() {
            if entry.is_none() {
                *entry = Some(Entry { file: known, by });
                return true;
            }
        }
        false
    }
}
