//! The refusals as one enum, with the number, the party and the spot of each.
ghost use Rattle.std.specs.Prelude.{◌≡◌};
ghost use Rattle.refusal.specs.Numbers.{number};
ghost use Rattle.refusal.specs.Parties.{party, party_number};
ghost use Rattle.refusal.specs.Spots.{spot};
ghost use Rattle.refusal.specs.Chains.{SmallestFirst};

/// What a refusal points at.
#[derive(Clone, Copy, PartialEq, Eq, Debug)]
pub enum Spot {
    /// The call as a whole.
    Call,
    /// A piece, counted from 0 in the order in which the pieces were given.
    Piece(usize),
    /// An entry of a piece's page list: the piece, then the entry, both counted from 0.
    Entry(usize, usize),
}

/// Who brings a refusal about.
#[derive(Clone, Copy, PartialEq, Eq, Debug)]
pub enum Party {
    /// The caller's set-up.
    SetUp,
    /// The driver.
    Driver,
    /// The device.
    Device,
    /// The sender of an element image.
    ImageSender,
}

/// The place of the party in the list of parties, from 1.
impl From<Party> for u8 {
    ghost from_gives = { λ p n. n ≡ party_number p };

    fn from(party: Party) -> u8 {
        match party {
            Party::SetUp => 1,
            Party::Driver => 2,
            Party::Device => 3,
            Party::ImageSender => 4,
        }
    }
}

/// Why a call is refused, in the order of the numbers 1 to 17.
#[derive(Clone, Copy, PartialEq, Eq, Debug)]
pub enum Refusal {
    /// Memory, page count or notice buffer of wrong size.
    WrongSize,
    /// Set above 31.
    NoSuchSet,
    /// The set's state does not allow the call.
    WrongState,
    /// The pipe is absent, or another set uses it.
    PipeUnavailable,
    /// Endpoint numbers out of their bounds.
    EndpointNumbers,
    /// Not 1 to 7 pieces.
    PieceCount,
    /// Too few free slots.
    SlotsShort,
    /// A place or length outside the rules or the memory.
    BadPlace(Spot),
    /// A page that is owned, or named twice.
    PageTaken(Spot),
    /// Nothing to reap or take.
    NothingThere,
    /// A permit of another engine, or its set not stopped.
    BadPermit,
    /// Unreaped pieces.
    Unreaped,
    /// Slot empty, above 7, or listed where a direct piece is asked for.
    BadSlot,
    /// A notice's size or key.
    BadNotice,
    /// Notices are off.
    NoticesOff,
    /// All 64 blocks untaken.
    NoticesFull,
    /// An image that is not 24 bytes.
    ImageSize,
}

/// The number by which people and logs know the refusal.
impl From<Refusal> for u8 {
    ghost from_gives = { λ r n. n ≡ number r };

    fn from(refusal: Refusal) -> u8 {
        match refusal {
            Refusal::WrongSize => 1,
            Refusal::NoSuchSet => 2,
            Refusal::WrongState => 3,
            Refusal::PipeUnavailable => 4,
            Refusal::EndpointNumbers => 5,
            Refusal::PieceCount => 6,
            Refusal::SlotsShort => 7,
            Refusal::BadPlace(_) => 8,
            Refusal::PageTaken(_) => 9,
            Refusal::NothingThere => 10,
            Refusal::BadPermit => 11,
            Refusal::Unreaped => 12,
            Refusal::BadSlot => 13,
            Refusal::BadNotice => 14,
            Refusal::NoticesOff => 15,
            Refusal::NoticesFull => 16,
            Refusal::ImageSize => 17,
        }
    }
}

impl Refusal {
    /// Who brought it about.
    pub fn party(self) -> Party
        ensures { result ≡ party self }
    {
        match self {
            Refusal::WrongSize | Refusal::NoSuchSet => Party::SetUp,
            Refusal::BadNotice | Refusal::NoticesOff | Refusal::NoticesFull => Party::Device,
            Refusal::ImageSize => Party::ImageSender,
            _ => Party::Driver,
        }
    }

    /// What it points at.
    pub fn spot(self) -> Spot
        ensures { result ≡ spot self }
    {
        match self {
            Refusal::BadPlace(spot) | Refusal::PageTaken(spot) => spot,
            _ => Spot::Call,
        }
    }
}

/// Of a chain of rules whose numbers rise, the smallest refusal whose condition holds comes.
pub fn smallest_first()
    ensures { SmallestFirst }
{}
