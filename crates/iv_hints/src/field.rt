//! Which field of a line a fault is about.

/// The column of a record, a region, or of the fields after a command that a fault is about, counted from 0.
pub(crate) fn column_of(fault: &[u8], command: &[u8]) -> Option<usize> {
    match fault {
        b"E5" if command == b"resize".as_slice() => Some(1),
        b"E3" | b"E13" | b"E14" | b"E21" | b"E24" | b"L2" | b"L4" => Some(0),
        b"E4" | b"E6" | b"E16" | b"E17" | b"E18" | b"E23" | b"L3" => Some(1),
        b"E5" | b"E7" => Some(2),
        b"E8" => Some(3),
        b"E9" => Some(4),
        b"E10" => Some(5),
        _ => None,
    }
}

/// How many fields of a line of a script are before what its fault is about, if so many after the command are a sound record.
pub(crate) fn fields_before(fault: &[u8], command: &[u8], sound: u8) -> usize {
    match fault {
        b"E1" => 0,
        b"E3" | b"E4" | b"E5" | b"E6" | b"E7" if command == b"show".as_slice() => 2,
        b"E3" | b"E4" | b"E5" | b"E6" | b"E7" | b"E8" | b"E9" | b"E10" =>
            (sound as usize).saturating_add(1),
        _ => 1,
    }
}

/// The number of the field that a fault is about, counted from 1; 0 if it is about no one field.
pub(crate) fn place_of(before: usize, column: Option<usize>) -> usize {
    column.map_or(0, |column| before.saturating_add(column).saturating_add(1))
}
