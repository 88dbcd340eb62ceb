//! Bytes taken apart.
ghost use Rattle.std.specs.Prelude.{◌≡◌};
ghost use Rattle.frames.specs.Frames.{decoded, setup_frame, round_frame, block_frame, message_frame};
ghost use Rattle.frames.specs.Shape.{shape};

use crate::frame::{Frame, Setup};
use calls::Call;
use entries::card::Card;
use entries::slip::Slip;

/// What a hall is set up with.
fn decode_setup(bytes: &[u8]) -> Option<Frame<'_>>
    ensures { shape result ≡ setup_frame bytes.now }
{
    match bytes {
        [0x01, n, t, rounds, dh, dl, eh, el, ch, cl] => Some(Frame::Opening(Setup {
            n: *n,
            t: *t,
            rounds: *rounds,
            d: u16::from_be_bytes([*dh, *dl]),
            e: u16::from_be_bytes([*eh, *el]),
            corrupt: u16::from_be_bytes([*ch, *cl]),
        })),
        [0x02, sh, sl, a, b, c, d] => Some(Frame::Card(Card {
            store: u16::from_be_bytes([*sh, *sl]),
            find: u32::from_be_bytes([*a, *b, *c, *d]),
        })),
        [0x03, a, b, c, d, e, f, g, h] => Some(Frame::Slip(Slip {
            one: u32::from_be_bytes([*a, *b, *c, *d]),
            other: u32::from_be_bytes([*e, *f, *g, *h]),
        })),
        [0x04, ranks @ ..] if ranks.len() <= 13 => Some(Frame::Ranks(ranks)),
        _ => None,
    }
}

/// Calls that move a seat's clock and round.
fn decode_round_call(bytes: &[u8]) -> Option<Frame<'_>>
    ensures { shape result ≡ round_frame bytes.now }
{
    match bytes {
        [0x10, seat, a, b, c, d] => Some(Frame::Call(Call::Tick {
            seat: *seat,
            time: u32::from_be_bytes([*a, *b, *c, *d]),
        })),
        [0x11, seat] => Some(Frame::Call(Call::Enter { seat: *seat })),
        _ => None,
    }
}

/// Calls of a seat on blocks.
fn decode_block_call(bytes: &[u8]) -> Option<Frame<'_>>
    ensures { shape result ≡ block_frame bytes.now }
{
    match bytes {
        [0x12, seat, hi, lo, places @ ..] if places.len() <= 8 => Some(Frame::Call(
            Call::Propose {
                seat: *seat,
                parent: u16::from_be_bytes([*hi, *lo]),
                places,
            },
        )),
        [0x13, seat, hi, lo] => Some(Frame::Call(Call::Echo {
            seat: *seat,
            block: u16::from_be_bytes([*hi, *lo]),
        })),
        [0x14, seat, hi, lo] => Some(Frame::Call(Call::Finish {
            seat: *seat,
            block: u16::from_be_bytes([*hi, *lo]),
        })),
        [0x15, seat, hi, lo] => Some(Frame::Call(Call::Commit {
            seat: *seat,
            block: u16::from_be_bytes([*hi, *lo]),
        })),
        _ => None,
    }
}

/// Calls on messages and for corrupt seats.
fn decode_message_call(bytes: &[u8]) -> Option<Frame<'_>>
    ensures { shape result ≡ message_frame bytes.now }
{
    match bytes {
        [0x16, seat, kind, signer, hi, lo] => Some(Frame::Call(Call::Deliver {
            seat: *seat,
            kind: *kind,
            signer: *signer,
            subject: u16::from_be_bytes([*hi, *lo]),
        })),
        [0x17, seat, round, hi, lo, places @ ..] if places.len() <= 8 => {
            Some(Frame::Call(Call::Forge {
                seat: *seat,
                round: *round,
                parent: u16::from_be_bytes([*hi, *lo]),
                places,
            }))
        }
        [0x18, seat, kind, hi, lo] => Some(Frame::Call(Call::Seal {
            seat: *seat,
            kind: *kind,
            subject: u16::from_be_bytes([*hi, *lo]),
        })),
        _ => None,
    }
}

/// What the bytes of a line say, by the family that the first is of; none where they say nothing.
pub fn decode(bytes: &[u8]) -> Option<Frame<'_>>
    ensures { shape result ≡ decoded bytes.now }
{
    match bytes {
        [0x00..=0x0f, ..] => decode_setup(bytes),
        [0x10..=0x11, ..] => decode_round_call(bytes),
        [0x12..=0x15, ..] => decode_block_call(bytes),
        _ => decode_message_call(bytes),
    }
}
