// The layout of a picture: TLVs (type, length, value) in its data area, and the message among them.
ghost use Rattle.std.specs.Prelude.{◌≡◌, ◌≢◌, ◌≤◌, true, length, drop, is_some, is_ok, MatchResult};
ghost use Rattle.phone.specs.Areas.{kind_of};
ghost use Rattle.phone.specs.Cursors.{leaving, rest};
ghost use Rattle.phone.specs.Layout.{Bounded, control, message_of, opened, three, cleared, sized, tlv, valued, onward, walked};
ghost use Rattle.phone.specs.Tiling.{ReadOff};

use crate::area::{Area, Control, named_area};
use crate::cursor::{AREA_START, Cursor, Picture};
use crate::faults::{NO_CONTAINER, WRONG_SIZE, cut_short, long_length, no_message, not_three};
use air::fault::Fault;

const NULL: u8 = 0x00;

const NDEF_MESSAGE: u8 = 0x03;

const TERMINATOR: u8 = 0xfe;

// The address after the message's length byte, and how many bytes its value has. Where that address is skipped, the value begins behind it.
#[derive(Clone, Copy)]
pub struct Message {
    pub place: u16,
    pub length: u8,
}

// One TLV: the address of its type byte, its type and length, and the address after its length byte (of a null, after its type byte).
// The type is the byte itself, since any byte is a type and is listed as it stands.
#[derive(Clone, Copy)]
pub(crate) struct Tlv {
    pub(crate) at: u16,
    pub(crate) kind: u8,
    pub(crate) length: u8,
    pub(crate) place: u16,
}

impl Tlv {
    // The message that it is, if it is one.
    pub(crate) fn message(self) -> Option<Message>
        ensures value { result ≡ message_of self }
    {
        (self.kind == NDEF_MESSAGE).then_some(Message {
            place: self.place,
            length: self.length,
        })
    }
}

// The picture whose bytes these are.
pub(crate) fn picture_in(bytes: &[u8]) -> Result<&Picture, Fault>
    ensures { MatchResult result (λ p. (length bytes.now ≡ 256) × (p.now ≡ bytes.now)) (λ f. (length bytes.now ≢ 256) × (f ≡ Fault.Call 6 0)) }
{
    <&Picture>::try_from(bytes).map_err(|_| WRONG_SIZE)
}

// A cursor at the start of the picture's area.
pub(crate) fn open(picture: &Picture) -> Result<Cursor<'_>, Fault>
    ensures value { result ≡ opened picture.now }
{
    let end = AREA_START + 8 * u16::from(picture[14]);
    if picture[12] != 0xe1 || picture[13] >> 4 != 1 || end > 256 {
        return Err(NO_CONTAINER);
    }
    Ok(Cursor::new(picture, end))
}

impl Cursor<'_> {
    // Takes the three bytes of a control TLV, if there are so many left: the area that it names.
    fn control_area(&mut self, kind: Control) -> Option<Area>
        ensures value { result ≡ three self.old.picture (kind_of kind) self.old.left }
        ensures after { is_some result ≡ true → self.new ≡ leaving self.old (drop 3 self.old.left) }
    {
        let (_, position) = self.take()?;
        let (_, size) = self.take()?;
        let (_, control) = self.take()?;
        Some(named_area(kind, position, size, control))
    }

    // Takes the value of a TLV, and skips the area that a control TLV names.
    fn pass_value(&mut self, tlv: Tlv)
        requires { ((control tlv.kind ≡ true → tlv.length ≡ 3)) × (tlv.length ≤ length self.old.left) }
        ensures after { self.new ≡ leaving self.old (cleared self.old.picture tlv.kind tlv.length self.old.left) }
    {
        match Control::of(tlv.kind) {
            Some(kind) => {
                if let Some(area) = self.control_area(kind) {
                    self.skip(area);
                }
            }
            None => self.pass(tlv.length),
        }
    }

    // The rest of a TLV's head, from its length byte on.
    fn sized_head(&mut self, at: u16, kind: u8) -> Result<Tlv, Fault>
        requires { at ≤ 256 }
        ensures value { result ≡ sized self.old.picture at kind self.old.left }
        ensures bound { Bounded result }
        ensures after { is_ok result ≡ true → self.new ≡ leaving self.old (rest self.old.left) }
    {
        let Some((length_at, length)) = self.take() else {
            return Err(cut_short(at));
        };
        if length == 0xff {
            return Err(long_length(at));
        }
        if Control::of(kind).is_some() && length != 3 {
            return Err(not_three(at));
        }
        if self.count() < u16::from(length) {
            return Err(cut_short(at));
        }
        Ok(Tlv {
            at,
            kind,
            length,
            place: length_at + 1,
        })
    }

    // The type and length of the next TLV, whose value is then the next to be taken.
    fn head(&mut self) -> Result<Tlv, Fault>
        ensures value { result ≡ tlv self.old.picture self.old.end self.old.left }
        ensures bound { Bounded result }
        ensures after { is_ok result ≡ true → self.new ≡ leaving self.old (valued self.old.picture self.old.left) }
    {
        match self.take() {
            Some((at, NULL)) => Ok(Tlv {
                at,
                kind: NULL,
                length: 0,
                place: at + 1,
            }),
            Some((at, TERMINATOR)) => Err(no_message(at)),
            Some((at, kind)) => self.sized_head(at, kind),
            None => Err(no_message(self.area_end())),
        }
    }

    // The next TLV, passed over whole; of a message the value is still to be taken.
    // No `Iterator`, since a walk never just ends: past the last TLV comes a fault.
    pub(crate) fn next_tlv(&mut self) -> Result<Tlv, Fault>
        ensures value { result ≡ tlv self.old.picture self.old.end self.old.left }
        ensures bound { Bounded result }
        ensures after { is_ok result ≡ true → self.new ≡ leaving self.old (onward self.old.picture self.old.left) }
    {
        let tlv = self.head()?;
        if tlv.kind != NDEF_MESSAGE {
            self.pass_value(tlv);
        }
        Ok(tlv)
    }
}

// Where the message of a picture stands, or the first thing that went wrong.
pub fn walk(picture: &[u8]) -> Result<Message, Fault>
    ensures value { result ≡ (walked picture.now).answer }
    ensures laid { ReadOff picture.now result }
{
    let picture = picture_in(picture)?;
    let mut cursor = open(picture)?;
    loop {
        if let Some(message) = cursor.next_tlv()?.message() {
            return Ok(message);
        }
    }
}
