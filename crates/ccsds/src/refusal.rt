// The refusals, by the words of document 01's table and of document 02, jobs 2, 3 and 6.
ghost use Rattle.std.specs.Prelude.{◌≡◌};
ghost use Rattle.ccsds.specs.Refusals.{refusal_number};

#[derive(Clone, Copy, Debug, PartialEq, Eq)]
pub enum Refusal {
    Code,
    Width,
    Label,
    Length,
    Header,
    Extension,
    Parameters,
    Foreign,
    Position,
    Symbol,
    Mark,
    Conflict,
    Fill,
    Idle,
    Narrow,
    Tiles,
    Overfull,
    Number,
    Kind,
}

impl Refusal {
    // The refusal's number in the table.
    pub fn number(self) -> u8
        ensures { result ≡ refusal_number self }
    {
        match self {
            Refusal::Code => 1,
            Refusal::Width => 2,
            Refusal::Label => 3,
            Refusal::Length => 4,
            Refusal::Header => 5,
            Refusal::Extension => 6,
            Refusal::Parameters => 7,
            Refusal::Foreign => 8,
            Refusal::Position => 9,
            Refusal::Symbol => 10,
            Refusal::Mark => 11,
            Refusal::Conflict => 12,
            Refusal::Fill => 13,
            Refusal::Idle => 14,
            Refusal::Narrow => 15,
            Refusal::Tiles => 16,
            Refusal::Overfull => 17,
            Refusal::Number => 19,
            Refusal::Kind => 20,
        }
    }
}
