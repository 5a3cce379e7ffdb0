//! What a line of a script asks for.
ghost use Rattle.std.specs.Prelude.{◌≡◌, ◌≢◌, ◌<◌, ◌≤◌, ◌++◌, Err, None, IfOk, MatchOption, length, Ok, ◌==◌, if◌then◌else◌};
ghost use Rattle.iv_lines.specs.Bytes.{tab};
ghost use Rattle.iv_lines.specs.Chains.{if_ok};
ghost use Rattle.iv_lines.specs.Fields.{columns as columns_of, fields_left};
ghost use Rattle.iv_lines.specs.Genome.{most_length};
ghost use Rattle.iv_lines.specs.Read.{Fits, read_columns};
ghost use Rattle.iv_workspace.specs.Edits.{EditFits};
ghost use Rattle.iv_workspace.specs.States.{State};
ghost use Rattle.iv_session.specs.EditLines.{edit_said, read_two};
ghost use Rattle.iv_session.specs.Requests.{asked, asked_by, edit_asked, length_said, only_field, show_all_asked, show_asked, two_fields as two_of};
ghost use Rattle.iv_session.specs.Inside.Requests.{RequestFits, both};
ghost use Rattle.iv_session.specs.declared.request.Request.TheVariants as request;
ghost use Rattle.iv_lines.specs.Widths.{IsWidth};

use iv_lines::{
    Fault, Genome, MOST_LENGTH, RecordRef, columns, read_number, read_record, split_first_column,
};
use iv_track::Region;
use iv_workspace::{Edit, Session, Target};
use std::alloc::Allocator;
use std::marker::Model;

/// What a line asks for. Names, arguments and columns are in the line.
#[derive(Drop)]
pub(crate) enum Request<'a> {
    /// Nothing: the line is empty or a comment.
    Nothing,
    /// To edit one of the two tracks.
    Edit(Target, Edit<'a>),
    /// To give the sequence of this name this length, which is at most 4,000,000,000.
    Resize(Field<'a>, u64),
    /// To open a view under this name, by the arguments in this text.
    Open(Field<'a>, Field<'a>),
    Close(Field<'a>),
    /// To print the view of this name, all of it or a region.
    Print(Field<'a>, Option<Region>),
    /// To print all views, all of each or a region.
    PrintAll(Option<Region>),
}

/// A field of a line.
#[derive(Drop)]
pub(crate) struct Field<'a> {
    bytes: &'a [u8],
}

impl<'a> Model for Field<'a> {
    ghost use Rattle.std.specs.Prelude.{List, ℕ};

    ghost Value = { List ℕ };

    ghost view = { λ f. f.bytes.now };
}

impl<'a> Field<'a> {
    fn of(bytes: &'a [u8]) -> Self
        ensures { result ≡ bytes.now }
    {
        Field { bytes }
    }

    pub(crate) fn bytes(&self) -> &'a [u8]
        ensures { result.now ≡ self.now }
    {
        self.bytes
    }
}

/// What an edit does, whatever its records are.
#[derive(Clone, Copy)]
pub(crate) enum EditKind {
    Add,
    Remove,
    Replace,
}

impl<'a> Request<'a> {
    /// What a line asks for, or why it is no request: another command or other fields than it takes, or the first
    /// fault of a record.
    pub(crate) fn read<A: Allocator + Copy>(
        session: &Session<A>,
        line: &'a [u8],
    ) -> Result<Request<'a>, Fault>
        ensures value { result ≡ asked session.now line.now }
        ensures fits { IfOk result (RequestFits session.now) }
    {
        if line.is_empty() || line[0] == b'#' {
            return Ok(Request::Nothing);
        }
        let (command, fields) = split_first_column(line);
        Request::of_command(session, command, fields)
    }

    /// What a command asks for with what is after its TAB, if it has one.
    fn of_command<A: Allocator + Copy>(
        session: &Session<A>,
        command: &'a [u8],
        fields: Option<&'a [u8]>,
    ) -> Result<Request<'a>, Fault>
        ensures value { result ≡ asked_by session.now command.now (fields_left tab fields.entry) }
        ensures fits { IfOk result (RequestFits session.now) }
    {
        if command == b"add".as_slice() {
            Request::edit(session, Target::First, EditKind::Add, fields)
        } else if command == b"remove".as_slice() {
            Request::edit(session, Target::First, EditKind::Remove, fields)
        } else if command == b"replace".as_slice() {
            Request::edit(session, Target::First, EditKind::Replace, fields)
        } else if command == b"addb".as_slice() {
            Request::edit(session, Target::Second, EditKind::Add, fields)
        } else if command == b"removeb".as_slice() {
            Request::edit(session, Target::Second, EditKind::Remove, fields)
        } else if command == b"replaceb".as_slice() {
            Request::edit(session, Target::Second, EditKind::Replace, fields)
        } else if command == b"open".as_slice() {
            Request::open(fields)
        } else if command == b"close".as_slice() {
            Request::close(fields)
        } else if command == b"print".as_slice() {
            Request::print(fields)
        } else if command == b"printall".as_slice() {
            Request::print_all(fields)
        } else if command == b"show".as_slice() {
            Request::show(session, fields)
        } else if command == b"showall".as_slice() {
            Request::show_all(session, fields)
        } else if command == b"resize".as_slice() {
            Request::resize(fields)
        } else {
            Err(Fault::Command)
        }
    }

    /// To edit a track by the record or the two records of the columns after the command.
    fn edit<A: Allocator + Copy>(
        session: &Session<A>,
        target: Target,
        kind: EditKind,
        fields: Option<&'a [u8]>,
    ) -> Result<Request<'a>, Fault>
        ensures value { result ≡ edit_asked session.now target kind (fields_left tab fields.entry) }
        ensures fits { IfOk result (RequestFits session.now) }
    {
        let (genome, width) = session.genome_and_width(target)?;
        let edit = read_edit(genome, width, kind, fields)?;
        Ok(Request::Edit(target, edit))
    }

    /// To give the sequence of the first field the length of the second.
    fn resize(fields: Option<&'a [u8]>) -> Result<Request<'a>, Fault>
        ensures value { result ≡ if_ok (two_of (fields_left tab fields.entry)) (λ pair. if_ok (length_said pair.1) (λ n. Ok (request.Resize pair.0 n))) }
        ensures fits { (s : State) → IfOk result (RequestFits s) }
    {
        let (name, field) = two_fields(fields)?;
        let length = read_length(field.bytes())?;
        Ok(Request::Resize(name, length))
    }

    /// To open a view under the first field, by the arguments in the second.
    fn open(fields: Option<&'a [u8]>) -> Result<Request<'a>, Fault>
        ensures { result ≡ if_ok (two_of (fields_left tab fields.entry)) (λ pair. Ok (request.Open pair.0 pair.1)) }
    {
        let (name, arguments) = two_fields(fields)?;
        Ok(Request::Open(name, arguments))
    }

    /// To close the view of the one field.
    fn close(fields: Option<&'a [u8]>) -> Result<Request<'a>, Fault>
        ensures { result ≡ if_ok (only_field (fields_left tab fields.entry)) (λ name. Ok (request.Close name)) }
    {
        Ok(Request::Close(one_field(fields)?))
    }

    /// To print the view of the one field.
    fn print(fields: Option<&'a [u8]>) -> Result<Request<'a>, Fault>
        ensures value { result ≡ if_ok (only_field (fields_left tab fields.entry)) (λ name. Ok (request.Print name None)) }
        ensures fits { (s : State) → IfOk result (RequestFits s) }
    {
        Ok(Request::Print(one_field(fields)?, None))
    }

    /// To print all views; there is no field.
    fn print_all(fields: Option<&'a [u8]>) -> Result<Request<'a>, Fault>
        ensures value { result ≡ (if length (fields_left tab fields.entry) == 0 then Ok (request.PrintAll None) else Err Fault.Command) }
        ensures fits { (s : State) → IfOk result (RequestFits s) }
    {
        if fields.is_some() {
            return Err(Fault::Command);
        }
        Ok(Request::PrintAll(None))
    }

    /// To print the rows of a region of the view of the first field. That no view has this name is reported first.
    fn show<A: Allocator + Copy>(
        session: &Session<A>,
        fields: Option<&'a [u8]>,
    ) -> Result<Request<'a>, Fault>
        ensures value { result ≡ show_asked session.now (fields_left tab fields.entry) }
        ensures fits { IfOk result (RequestFits session.now) }
    {
        let mut columns = columns(fields.ok_or(Fault::Command)?);
        let name = columns.next().ok_or(Fault::Command)?;
        let sequence = columns.next().ok_or(Fault::Command)?;
        let start = columns.next().ok_or(Fault::Command)?;
        let stop = columns.next().ok_or(Fault::Command)?;
        if columns.next().is_some() {
            return Err(Fault::Command);
        }
        if !session.is_open(name) {
            return Err(Fault::NoView);
        }
        let region = session.region(sequence, start, stop)?;
        Ok(Request::Print(Field::of(name), Some(region)))
    }

    /// To print the rows of a region of all views.
    fn show_all<A: Allocator + Copy>(
        session: &Session<A>,
        fields: Option<&'a [u8]>,
    ) -> Result<Request<'a>, Fault>
        ensures value { result ≡ show_all_asked session.now (fields_left tab fields.entry) }
        ensures fits { IfOk result (RequestFits session.now) }
    {
        let mut columns = columns(fields.ok_or(Fault::Command)?);
        let sequence = columns.next().ok_or(Fault::Command)?;
        let start = columns.next().ok_or(Fault::Command)?;
        let stop = columns.next().ok_or(Fault::Command)?;
        if columns.next().is_some() {
            return Err(Fault::Command);
        }
        let region = session.region(sequence, start, stop)?;
        Ok(Request::PrintAll(Some(region)))
    }
}

/// The field after a command that takes one.
fn one_field(fields: Option<&[u8]>) -> Result<Field<'_>, Fault>
    ensures { result ≡ only_field (fields_left tab fields.entry) }
{
    let mut columns = columns(fields.ok_or(Fault::Command)?);
    let field = columns.next().ok_or(Fault::Command)?;
    match columns.next() {
        Some(_) => Err(Fault::Command),
        None => Ok(Field::of(field)),
    }
}

/// The fields after a command that takes two.
fn two_fields(fields: Option<&[u8]>) -> Result<(Field<'_>, Field<'_>), Fault>
    ensures { result ≡ two_of (fields_left tab fields.entry) }
{
    let mut columns = columns(fields.ok_or(Fault::Command)?);
    let first = columns.next().ok_or(Fault::Command)?;
    let second = columns.next().ok_or(Fault::Command)?;
    match columns.next() {
        Some(_) => Err(Fault::Command),
        None => Ok((Field::of(first), Field::of(second))),
    }
}

/// The length that a field means: 1 to 10 digits, and at most 4,000,000,000.
fn read_length(field: &[u8]) -> Result<u64, Fault>
    ensures value { result ≡ length_said field.now }
    ensures bounded { IfOk result (λ length. length ≤ most_length) }
{
    match read_number(field) {
        Some(length) if length <= MOST_LENGTH => Ok(length),
        _ => Err(Fault::StopNumber),
    }
}

/// The edit that the columns after a command mean, on a track of this width, or their first fault.
fn read_edit<'a, A: Allocator + Copy>(
    genome: &Genome<A>,
    width: u8,
    kind: EditKind,
    fields: Option<&'a [u8]>,
) -> Result<Edit<'a>, Fault>
    requires { IsWidth width }
    ensures value { result ≡ edit_said genome.now width kind (fields_left tab fields.entry) }
    ensures fits { IfOk result (EditFits (Fits genome.now width)) }
{
    match kind {
        EditKind::Add => Ok(Edit::Add(one_row(genome, width, fields)?)),
        EditKind::Remove => Ok(Edit::Remove(one_row(genome, width, fields)?)),
        EditKind::Replace => {
            let (old, new) = two_rows(genome, width, fields)?;
            Ok(Edit::Replace(old, new))
        }
    }
}

/// The record of the columns after a command, of this width, or its first fault.
fn one_row<'a, A: Allocator + Copy>(
    genome: &Genome<A>,
    width: u8,
    fields: Option<&'a [u8]>,
) -> Result<RecordRef<'a>, Fault>
    requires { IsWidth width }
    ensures value { result ≡ read_columns genome.now width (fields_left tab fields.entry) }
    ensures fits { IfOk result (Fits genome.now width) }
{
    read_record(genome, width, fields.unwrap_or(b""))
}

/// Both records of a line, or a fault: that the second has too few or too many columns is reported first, then a
/// fault of the first record, then one of the second.
fn both_rows<'a>(
    first: Result<RecordRef<'a>, Fault>,
    second: Result<RecordRef<'a>, Fault>,
) -> Result<(RecordRef<'a>, RecordRef<'a>), Fault>
    ensures columns { second.entry ≡ Err Fault.Columns → result ≡ Err Fault.Columns }
    ensures others { second.entry ≢ Err Fault.Columns → result ≡ both first.entry second.entry }
{
    match (first, second) {
        (_, Err(Fault::Columns)) => Err(Fault::Columns),
        (Err(fault), _) => Err(fault),
        (Ok(_), Err(fault)) => Err(fault),
        (Ok(first), Ok(second)) => Ok((first, second)),
    }
}

/// The two records of the columns after a command, of this width, or their first fault.
fn two_rows<'a, A: Allocator + Copy>(
    genome: &Genome<A>,
    width: u8,
    fields: Option<&'a [u8]>,
) -> Result<(RecordRef<'a>, RecordRef<'a>), Fault>
    requires { IsWidth width }
    ensures value { result ≡ read_two genome.now width (fields_left tab fields.entry) }
    ensures first { IfOk result (λ records. Fits genome.now width records.0) }
    ensures second { IfOk result (λ records. Fits genome.now width records.1) }
{
    match split_columns(fields.unwrap_or(b""), width) {
        Some((old, new)) => both_rows(
            read_record(genome, width, old),
            read_record(genome, width, new),
        ),
        None => Err(Fault::Columns),
    }
}

/// How many columns after the command of a line are a record without a fault, before another one: those of the old record of a line that
/// replaces it.
pub(crate) fn sound_columns<A: Allocator + Copy>(session: &Session<A>, line: &[u8]) -> u8 {
    let (command, fields) = split_first_column(line);
    let target = match command {
        b"replace" => Target::First,
        b"replaceb" => Target::Second,
        _ => return 0,
    };
    let Ok((genome, width)) = session.genome_and_width(target) else {
        return 0;
    };
    match split_columns(fields.unwrap_or(b""), width) {
        Some((old, _)) if read_record(genome, width, old).is_ok() => width,
        _ => 0,
    }
}

/// The first columns of a text, as many as the count, and the columns after them. There is at least one on each side.
fn split_columns(text: &[u8], count: u8) -> Option<(&[u8], &[u8])>
    requires { 0 < count }
    ensures { MatchOption result (length (columns_of text.now) ≤ count)
        (λ parts. (columns_of text.now ≡ columns_of parts.0.now ++ columns_of parts.1.now) × (length (columns_of parts.0.now) ≡ count)) }
{
    let mut rest = text;
    for _ in 0..count {
        let (_, after) = split_first_column(rest);
        rest = after?;
    }
    Some((&text[..text.len() - rest.len() - 1], rest))
}
