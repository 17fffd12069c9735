// The calls that the list makes, each by its letter.

// What is measured or made of two planes.
#[derive(Clone, Copy)]
pub enum Measure {
    Difference,
    Total,
    Delta,
    Importance,
    Satd,
    Intra,
    Reduce,
}

// A block of the transform.
#[derive(Clone, Copy)]
pub enum Block {
    Four,
    Eight,
}

// What is done with a log.
#[derive(Clone, Copy)]
pub enum Task {
    Scan,
    Read,
    Append,
}

#[derive(Clone, Copy)]
pub enum Call {
    Scale,
    Transform(Block),
    Threshold,
    Fresh,
    Step,
    // Of planes of bytes, and of 16 bits, a quarter of a word of the memory.
    Bytes(Measure),
    Quarters(Measure),
    StripsStart,
    StripBytes,
    StripQuarters,
    StripsEnd,
    Log(Task),
    End,
}

// A letter that is no call's.
#[derive(Clone, Copy)]
pub struct NoCall;

impl TryFrom<u8> for Call {
    type Error = NoCall;

    fn try_from(letter: u8) -> Result<Call, NoCall> {
        match letter {
            b'S' => Ok(Call::Scale),
            b'H' => Ok(Call::Transform(Block::Four)),
            b'G' => Ok(Call::Transform(Block::Eight)),
            b'T' => Ok(Call::Threshold),
            b'F' => Ok(Call::Fresh),
            b'N' => Ok(Call::Step),
            b'P' => Ok(Call::Bytes(Measure::Difference)),
            b'M' => Ok(Call::Bytes(Measure::Total)),
            b'D' => Ok(Call::Bytes(Measure::Delta)),
            b'I' => Ok(Call::Bytes(Measure::Importance)),
            b'B' => Ok(Call::Bytes(Measure::Satd)),
            b'C' => Ok(Call::Bytes(Measure::Intra)),
            b'V' => Ok(Call::Bytes(Measure::Reduce)),
            b'X' => Ok(Call::StripBytes),
            b'Q' => Ok(Call::Quarters(Measure::Difference)),
            b'O' => Ok(Call::Quarters(Measure::Total)),
            b'U' => Ok(Call::Quarters(Measure::Delta)),
            b'J' => Ok(Call::Quarters(Measure::Importance)),
            b'Y' => Ok(Call::Quarters(Measure::Satd)),
            b'K' => Ok(Call::Quarters(Measure::Intra)),
            b'W' => Ok(Call::Quarters(Measure::Reduce)),
            b'Z' => Ok(Call::StripQuarters),
            b'[' => Ok(Call::StripsStart),
            b']' => Ok(Call::StripsEnd),
            b'L' => Ok(Call::Log(Task::Scan)),
            b'R' => Ok(Call::Log(Task::Read)),
            b'A' => Ok(Call::Log(Task::Append)),
            b'E' => Ok(Call::End),
            _ => Err(NoCall),
        }
    }
}
