// A line of the desk's board, changed in place: the named form, and one function above it with plain parameters. It knows nothing of boards and bytes.
#![tactic(auto)]

ghost use Rattle.std.specs.Prelude.{◌≡◌};
ghost use Rattle.desk_line.specs.Follow.{follow};

// A line by value. A free one is all 0; kind 1 is joined, 2 is left.
#[derive(Clone, Copy)]
pub struct Line {
    pub train: u32,
    pub cell: u16,
    pub kind: u8,
    pub sequence: u32,
}

// The line of a train that is on the board takes the next record: the train stays.
pub fn change(line: &mut Line, cell: u16, kind: u8, sequence: u32)
    ensures { line.new ≡ follow line.old cell kind sequence }
{
    line.cell = cell;
    line.kind = kind;
    line.sequence = sequence;
}

// The same by value, for callers that keep their lines in lent bytes.
pub fn changed(line: Line, cell: u16, kind: u8, sequence: u32) -> Line
    ensures { result ≡ follow line cell kind sequence }
{
    let mut own = line;
    change(&mut own, cell, kind, sequence);
    own
}
