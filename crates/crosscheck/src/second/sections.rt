// The sections of a file.
use crate::second::file::File;

// Each by the byte of the header field that has its offset.
#[derive(Clone, Copy, Default, PartialEq)]
pub enum Section {
    // a record for each flow
    #[default]
    Flows = 12,
    // the two vertices of each listed link
    Links = 16,
    // the length of each flow's route, and where it stands in the number list
    Entries = 20,
    // the number list: link numbers
    List = 24,
}

impl Section {
    pub const ALL: [Section; 4] = [
        Section::Flows,
        Section::Links,
        Section::Entries,
        Section::List,
    ];

    // The bytes of one of its records.
    pub fn width(self) -> u64 {
        match self {
            Section::Flows => 16,
            Section::Links | Section::Entries => 4,
            Section::List => 2,
        }
    }

    // How many bytes it has in a file.
    pub fn bytes(self, file: File) -> u64 {
        let records = match self {
            Section::Flows | Section::Entries => file.flows(),
            Section::Links => file.links(),
            Section::List => file.numbers(),
        };
        records.saturating_mul(self.width())
    }

    // Where it begins in a file.
    pub fn start(self, file: File) -> u64 {
        file.number(self as u64, 4)
    }

    // Where a record of it begins, from 0.
    pub fn place(self, file: File, record: u64) -> u64 {
        self.start(file)
            .saturating_add(record.saturating_mul(self.width()))
    }

    // Whether it ends past the file.
    pub fn overruns(self, file: File) -> bool {
        self.start(file).saturating_add(self.bytes(file)) > file.len()
    }
}
