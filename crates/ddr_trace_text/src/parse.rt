//! One record of a trace's text behind its header: a command with its cycle, or END.
//!
//! `specs/Parse.antt` has the fields of each command. `number` stands below, and `reader` above, which reads a text of
//! records. A crate above that cuts a line into its fields by itself hands them over as a `Record`.
ghost use Rattle.std.specs.Prelude.{◌≡◌, ◌&&◌, [], IfSome, get_or};
ghost use Rattle.csv.specs.Records.{fields_of};
ghost use Rattle.ddr_trace_text.specs.Parse.{IsEarly, act_of, are_empty, command_of, fields_in, index_of, is_empty, is_header, line_of, pre_of, prea_of, rd_of, rda_of, record_of, ref_of, seven_of, wr_of, wra_of};

use crate::number::parse_number;
use csv::ByteRecord;
use ddr_timing::units::{CLOCK_STOP, LINE_COLUMNS};
use ddr_trace::command::{Command, Entry};

/// The fields of a record.
const FIELDS: usize = 7;

/// What a record behind the header says.
#[derive(Clone, Copy, Debug, PartialEq, Eq)]
pub enum Parsed {
    Command(Entry),
    /// END, with the trace's end.
    End(u64),
}

/// The seven fields of a record, as the text has them.
#[derive(Clone, Copy)]
pub struct Record<'a> {
    pub cycle: &'a [u8],
    /// The name of a command, or END.
    pub name: &'a [u8],
    pub address: Address<'a>,
}

/// The fields that say where a command goes.
#[derive(Clone, Copy)]
pub struct Address<'a> {
    pub rank: &'a [u8],
    pub group: &'a [u8],
    pub bank: &'a [u8],
    pub row: &'a [u8],
    /// The device column at which a burst begins, a multiple of 8.
    pub column: &'a [u8],
}

/// Whether the record is the header.
#[tactic(auto, using(crate::proofs::FieldLemmas::header_by_seven, crate::proofs::FieldLemmas::header_not_seven))]
pub(crate) fn is_header(fields: &ByteRecord) -> bool
    ensures { result ≡ is_header (fields_of fields.now) }
{
    fields.len() == FIELDS && seven(fields).is_header()
}

/// What the record says; none where it is not one of a trace.
#[tactic(auto, using(crate::proofs::FieldLemmas::record_by_seven, crate::proofs::FieldLemmas::record_not_seven))]
pub(crate) fn parse_record(fields: &ByteRecord) -> Option<Parsed>
    ensures { result ≡ record_of (fields_of fields.now) }
{
    if fields.len() != FIELDS {
        return None;
    }
    seven(fields).parsed()
}

/// The first seven fields.
fn seven(fields: &ByteRecord) -> Record<'_>
    ensures { fields_in result ≡ seven_of (fields_of fields.now) }
{
    Record {
        cycle: field(fields, 0),
        name: field(fields, 1),
        address: Address {
            rank: field(fields, 2),
            group: field(fields, 3),
            bank: field(fields, 4),
            row: field(fields, 5),
            column: field(fields, 6),
        },
    }
}

#[tactic(auto, using(crate::proofs::FieldLemmas::field_there, crate::proofs::FieldLemmas::field_absent))]
/// The field of this number, counted from 0; empty where there is none.
fn field(fields: &ByteRecord, number: usize) -> &[u8]
    ensures { result.now ≡ get_or (fields_of fields.now) number [] }
{
    match fields.get(number) {
        Some(field) => field,
        None => b"",
    }
}

impl Record<'_> {
    /// Whether the seven fields are the names of the header.
    pub fn is_header(&self) -> bool
        ensures { result ≡ is_header (fields_in self.now) }
    {
        self.cycle == b"cycle".as_slice()
            && self.name == b"cmd".as_slice()
            && self.address.rank == b"rank".as_slice()
            && self.address.group == b"group".as_slice()
            && self.address.bank == b"bank".as_slice()
            && self.address.row == b"row".as_slice()
            && self.address.column == b"col".as_slice()
    }

    /// What the seven fields say; none where they are no record of a trace.
    #[tactic(auto, unfolding(crate::specs::Parse::record_of, crate::specs::Parse::with_cycle, crate::specs::Parse::entry_of, crate::specs::Parse::end_of))]
    pub fn parsed(&self) -> Option<Parsed>
        ensures exact { result ≡ record_of (fields_in self.now) }
        ensures early { IfSome result IsEarly }
    {
        let cycle = parse_number(self.cycle, CLOCK_STOP)?;
        if self.name == b"END".as_slice() {
            return self.address.is_empty().then_some(Parsed::End(cycle));
        }
        let command = self.address.command(self.name)?;
        Some(Parsed::Command(Entry { cycle, command }))
    }
}

impl Address<'_> {
    /// The command of this name; none where there is none of it, or a field is not as it wants it.
    #[tactic(auto, unfolding(crate::specs::Parse::command_of))]
    pub fn command(&self, name: &[u8]) -> Option<Command>
        ensures { result ≡ command_of name.now self.now.rank.now self.now.group.now self.now.bank.now self.now.row.now self.now.column.now }
    {
        if name == b"ACT".as_slice() {
            self.activate()
        } else if name == b"RD".as_slice() {
            self.read()
        } else if name == b"WR".as_slice() {
            self.write()
        } else if name == b"RDA".as_slice() {
            self.read_auto()
        } else if name == b"WRA".as_slice() {
            self.write_auto()
        } else if name == b"PRE".as_slice() {
            self.precharge()
        } else if name == b"PREA".as_slice() {
            self.precharge_all()
        } else if name == b"REF".as_slice() {
            self.refresh()
        } else {
            None
        }
    }

    #[tactic(auto, unfolding(crate::specs::Parse::act_of))]
    fn activate(&self) -> Option<Command>
        ensures { result ≡ act_of self.now.rank.now self.now.group.now self.now.bank.now self.now.row.now self.now.column.now }
    {
        let command = Command::Act {
            rank: index(self.rank)?,
            group: index(self.group)?,
            bank: index(self.bank)?,
            row: index(self.row)?,
        };
        self.column.is_empty().then_some(command)
    }

    #[tactic(auto, unfolding(crate::specs::Parse::rd_of))]
    fn read(&self) -> Option<Command>
        ensures { result ≡ rd_of self.now.rank.now self.now.group.now self.now.bank.now self.now.row.now self.now.column.now }
    {
        Some(Command::Rd {
            rank: index(self.rank)?,
            group: index(self.group)?,
            bank: index(self.bank)?,
            row: index(self.row)?,
            line: line(self.column)?,
        })
    }

    #[tactic(auto, unfolding(crate::specs::Parse::wr_of))]
    fn write(&self) -> Option<Command>
        ensures { result ≡ wr_of self.now.rank.now self.now.group.now self.now.bank.now self.now.row.now self.now.column.now }
    {
        Some(Command::Wr {
            rank: index(self.rank)?,
            group: index(self.group)?,
            bank: index(self.bank)?,
            row: index(self.row)?,
            line: line(self.column)?,
        })
    }

    #[tactic(auto, unfolding(crate::specs::Parse::rda_of))]
    fn read_auto(&self) -> Option<Command>
        ensures { result ≡ rda_of self.now.rank.now self.now.group.now self.now.bank.now self.now.row.now self.now.column.now }
    {
        Some(Command::RdAuto {
            rank: index(self.rank)?,
            group: index(self.group)?,
            bank: index(self.bank)?,
            row: index(self.row)?,
            line: line(self.column)?,
        })
    }

    #[tactic(auto, unfolding(crate::specs::Parse::wra_of))]
    fn write_auto(&self) -> Option<Command>
        ensures { result ≡ wra_of self.now.rank.now self.now.group.now self.now.bank.now self.now.row.now self.now.column.now }
    {
        Some(Command::WrAuto {
            rank: index(self.rank)?,
            group: index(self.group)?,
            bank: index(self.bank)?,
            row: index(self.row)?,
            line: line(self.column)?,
        })
    }

    #[tactic(auto, unfolding(crate::specs::Parse::pre_of))]
    fn precharge(&self) -> Option<Command>
        ensures { result ≡ pre_of self.now.rank.now self.now.group.now self.now.bank.now self.now.row.now self.now.column.now }
    {
        let command = Command::Pre {
            rank: index(self.rank)?,
            group: index(self.group)?,
            bank: index(self.bank)?,
        };
        (self.row.is_empty() && self.column.is_empty()).then_some(command)
    }

    #[tactic(auto, unfolding(crate::specs::Parse::prea_of))]
    fn precharge_all(&self) -> Option<Command>
        ensures { result ≡ prea_of self.now.rank.now self.now.group.now self.now.bank.now self.now.row.now self.now.column.now }
    {
        let rank = index(self.rank)?;
        self.names_no_bank().then_some(Command::PreAll { rank })
    }

    #[tactic(auto, unfolding(crate::specs::Parse::ref_of))]
    fn refresh(&self) -> Option<Command>
        ensures { result ≡ ref_of self.now.rank.now self.now.group.now self.now.bank.now self.now.row.now self.now.column.now }
    {
        let rank = index(self.rank)?;
        self.names_no_bank().then_some(Command::Refresh { rank })
    }

    /// Whether all fields but the rank's are empty.
    fn names_no_bank(&self) -> bool
        ensures { result ≡ are_empty self.now.group.now self.now.bank.now self.now.row.now self.now.column.now }
    {
        self.group.is_empty()
            && self.bank.is_empty()
            && self.row.is_empty()
            && self.column.is_empty()
    }

    /// Whether all five fields are empty.
    pub fn is_empty(&self) -> bool
        ensures { result ≡ (is_empty self.now.rank.now && are_empty self.now.group.now self.now.bank.now self.now.row.now self.now.column.now) }
    {
        self.rank.is_empty() && self.names_no_bank()
    }
}

/// The line that a device column begins; none where none begins there.
#[tactic(auto, unfolding(crate::specs::Parse::line_of))]
fn line(field: &[u8]) -> Option<u32>
    ensures { result ≡ line_of field.now }
{
    let column = index(field)?;
    (column % LINE_COLUMNS == 0).then_some(column / LINE_COLUMNS)
}

/// A rank, a group, a bank, a row or a column: a number below 2^32.
fn index(field: &[u8]) -> Option<u32>
    ensures { result ≡ index_of field.now }
{
    let index = parse_number(field, u64::from(u32::MAX))?;
    Some(index as u32)
}
