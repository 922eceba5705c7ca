// One card's offer, sent over a courier.
use crate::copies::bytes_of;
use anyhow::Context;
use channel::{Channel, Courier};
use element::Element;
use frame::{Message, decode, encode};
use kinds::Card;
use mast_sites::{SITES, SiteCard};
use std::{fmt, io};

// A round's number, and the range of key 0 alone.
const ROUND: u32 = 1;

const RANGE: u16 = 4;

// The frame is answered twice, then lost; the last take finds nothing.
const PICKS: [u8; 4] = [0, 64, 128, 0];

// The bytes of a frame in hexadecimal: the parts of the header, and what follows it.
#[derive(Drop)]
struct Hex<'a> {
    frame: &'a [u8],
}

impl fmt::Display for Hex<'_> {
    fn fmt<W: fmt::Write>(&self, f: &mut fmt::Formatter<W>) -> fmt::Result {
        for (place, byte) in self.frame.iter().enumerate() {
            if [1, 5, 7].contains(&place) {
                write!(f, " ")?;
            }
            write!(f, "{byte:02x}")?;
        }
        Ok(())
    }
}

// Prints what a frame brings, where it is an offer.
fn print_offer(rt: &HostRuntime, frame: &[u8]) -> io::Result<()> {
    let Ok(Message::Offer { round, range, part }) = decode::<Card>(SITES, frame) else {
        return println!(rt; "  no offer");
    };
    let Some(card) = Card::read(part) else {
        return println!(rt; "  no card");
    };
    let site = SiteCard {
        site: 0,
        card: &card,
    };
    println!(rt; "  round {round}, range {range}:  {site}")
}

// Sends the card as the offer of key 0, and prints what arrives.
pub(crate) fn send(rt: &HostRuntime, card: &Card) -> anyhow::Result<()> {
    let part = bytes_of(card);
    // a buffer and a length, since `encode` writes into lent memory
    let mut bytes = [0; 71];
    let offer = Message::Offer {
        round: ROUND,
        range: RANGE,
        part: &part,
    };
    let length = encode(offer, &mut bytes).context("the frame is too long")?;
    let frame = &bytes[..length];
    println!(rt; "the laptop offers its card of site 0 over a courier")?;
    println!(rt; "  {}", Hex { frame })?;
    let mut courier = Courier::new(&PICKS);
    courier.put(frame);
    for _ in PICKS {
        match courier.take() {
            Some(packet) => print_offer(rt, packet.as_bytes())?,
            None => println!(rt; "  nothing came")?,
        }
    }
    Ok(())
}
