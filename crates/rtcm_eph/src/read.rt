ghost use Rattle.std.specs.Prelude.{◌≡◌, ℕ, ◌≤◌, ◌<◌, IfOk, length};
ghost use Rattle.nav_bits.specs.Bits.{number_at};
ghost use Rattle.nav_eph.specs.declared.sat.System.TheVariants.{Gal, Gps};
ghost use Rattle.rtcm_eph.specs.Messages.{message1019_at, message1046_at};
ghost use Rattle.nav_eph.specs.Ranges.{IsItem};
ghost use Rattle.rtcm_eph.specs.Reading.{ArePartsOf, GivesItem, IsItemOf, IsOfSystem, content_of};
ghost use Rattle.rtcm_eph.specs.Reading.{gal_parts, gps_parts, item_in, parts_of};

use crate::content::{EphemerisMessage, GalContent, GpsContent};
use crate::fault::MessageFault;
use crate::galileo::judge_1046;
use crate::gps::judge_1019;
use crate::message1019::Message1019;
use crate::message1046::Message1046;
use nav_bits::{Layout, U};
use nav_eph::{
    Body, GalEph, GpsEph, NavItem, Part, RefWeek, Sat, Second, SentSecond, SentTag, gal_week,
    gps_week,
};

/// The parts of an ephemeris in one message, each with its reception time tag.
#[derive(Clone, Copy, PartialEq, Eq)]
pub enum MessageParts {
    /// From message 1019.
    Gps {
        /// The clock.
        clock: Part,
        /// The orbit parameters of subframe 2.
        a: Part,
        /// The orbit parameters of subframe 3.
        b: Part,
    },
    /// From message 1046.
    Gal {
        /// Word type 1.
        w1: Part,
        /// Word type 2.
        w2: Part,
        /// Word type 3.
        w3: Part,
        /// Word type 4.
        w4: Part,
        /// Group delays, signal health and data validity status.
        health: Part,
    },
}

// Message 1019 at the start of a payload.
fn message_1019_in(payload: &[u8]) -> Message1019
    requires { 61 ≤ length payload.now }
    ensures { result ≡ message1019_at payload.now 0 }
{
    let own = &payload[..61];
    Message1019::read_bits(own, 0)
}

// Message 1046 at the start of a payload.
fn message_1046_in(payload: &[u8]) -> Message1046
    requires { 63 ≤ length payload.now }
    ensures { result ≡ message1046_at payload.now 0 }
{
    let own = &payload[..63];
    Message1046::read_bits(own, 0)
}

// The message number at the start of a payload.
fn number_in(payload: &[u8]) -> u16
    requires { 2 ≤ length payload.now }
    ensures { result ≡ number_at payload.now 0 12 }
{
    let own = &payload[..2];
    let number: U<12> = U::read_bits(own, 0);
    number.value() as u16
}

// What a payload carries, or its first fault.
fn read_content(payload: &[u8]) -> Result<EphemerisMessage, MessageFault>
    ensures content { result ≡ content_of payload.now }
    ensures system { IfOk result IsOfSystem }
{
    if payload.len() < 2 {
        return Err(MessageFault::NoNumber);
    }
    let number = number_in(payload);
    if number == 1019 {
        if payload.len() < 61 {
            return Err(MessageFault::Short);
        }
        return judge_1019(&message_1019_in(payload));
    }
    if number == 1046 {
        if payload.len() < 63 {
            return Err(MessageFault::Short);
        }
        return judge_1046(&message_1046_in(payload));
    }
    Err(MessageFault::OtherMessage { number })
}

// The parts of a GPS ephemeris; the clock names the week and toe.
fn gps_parts_of(c: &GpsContent, stamp: u32) -> MessageParts
    requires { c.now.sat.system ≡ Gps }
    ensures are { result ≡ gps_parts stamp c.now }
    ensures parts { ArePartsOf result }
{
    let sat = c.sat;
    let tag = SentTag::Toe {
        wn: U::from_bits(c.week.value()),
        second: Second::from_number((16 * c.a.toe.value()) as u32),
    };
    MessageParts::Gps {
        clock: Part {
            stamp,
            sat,
            body: Body::GpsClock(c.clock, c.side, tag),
        },
        a: Part {
            stamp,
            sat,
            body: Body::GpsA(c.a, c.fit),
        },
        b: Part {
            stamp,
            sat,
            body: Body::GpsB(c.b),
        },
    }
}

// A part received from a satellite.
fn heard(stamp: u32, sat: Sat, body: Body) -> Part
    ensures { result ≡ record { stamp = stamp; sat = sat; body = body } }
{
    Part { stamp, sat, body }
}

// The parts of a Galileo ephemeris; the health names the week and toe.
fn gal_parts_of(c: &GalContent, stamp: u32) -> MessageParts
    requires { c.now.sat.system ≡ Gal }
    ensures are { result ≡ gal_parts stamp c.now }
    ensures parts { ArePartsOf result }
{
    let tag = SentTag::Toe {
        wn: c.week,
        second: Second::from_number((60 * c.w1.toe.value()) as u32),
    };
    MessageParts::Gal {
        w1: heard(stamp, c.sat, Body::GalW1(c.w1)),
        w2: heard(stamp, c.sat, Body::GalW2(c.w2)),
        w3: heard(stamp, c.sat, Body::GalW3(c.w3)),
        w4: heard(stamp, c.sat, Body::GalW4(c.w4)),
        health: heard(stamp, c.sat, Body::GalHealth(c.health, tag)),
    }
}

/// The parts of the ephemeris in a payload of message 1019 or 1046 (RTCM 10403.3, 3.5), received at
/// `stamp`, a second of the logger. The clock of GPS and the health of Galileo also have the
/// message's week number and toe in seconds. Bytes after the message are ignored.
///
/// The error is the first one, in the order of [`MessageFault`].
pub fn read_message(payload: &[u8], stamp: u32) -> Result<MessageParts, MessageFault>
    ensures answer { result ≡ parts_of stamp (content_of payload.now) }
    ensures parts { IfOk result ArePartsOf }
{
    match read_content(payload) {
        Ok(EphemerisMessage::Gps(c)) => Ok(gps_parts_of(&c, stamp)),
        Ok(EphemerisMessage::Gal(c)) => Ok(gal_parts_of(&c, stamp)),
        Err(fault) => Err(fault),
    }
}

// The ephemeris of a message, with its full week near the reference week.
fn item_of(content: &EphemerisMessage, r: RefWeek) -> NavItem
    ensures { IsItemOf r content.now result }
{
    match content {
        EphemerisMessage::Gps(c) => NavItem::Gps(GpsEph {
            sat: c.sat,
            clock: c.clock,
            side: c.side,
            a: c.a,
            fit: c.fit,
            b: c.b,
            toe_week: gps_week(r, c.week),
            sent: SentSecond::Unknown,
        }),
        EphemerisMessage::Gal(c) => NavItem::Gal(GalEph {
            sat: c.sat,
            w1: c.w1,
            w2: c.w2,
            w3: c.w3,
            w4: c.w4,
            health: c.health,
            toe_week: gal_week(r, c.week),
            sent: SentSecond::Unknown,
        }),
    }
}

/// The ephemeris in a payload of message 1019 or 1046 (RTCM 10403.3, 3.5). Its full week of toe is
/// the one near the reference week that has the message's week number; its transmission time is
/// unknown. Bytes after the message are ignored.
///
/// The error is the first one, in the order of [`MessageFault`].
pub fn read_item(payload: &[u8], r: RefWeek) -> Result<NavItem, MessageFault>
    ensures item { GivesItem r (content_of payload.now) result }
    ensures answer { result ≡ item_in r payload.now }
    ensures whole { IfOk result IsItem }
{
    let _reference = r.value();
    match read_content(payload) {
        Ok(content) => Ok(item_of(&content, r)),
        Err(fault) => Err(fault),
    }
}
