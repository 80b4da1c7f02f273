//! Home agents and prefixes, as another implementation wrote them.

use super::registrations::{ACKNOWLEDGED, REGISTERED, UPDATE};
use super::{CAREOF, Call, HOME, OWN, Row, SECOND};

const REQUEST: &[u8] =
    b"6000000000083a3f20010db800030000000000000000007720010db800010000fdfffffffffffffe900015d000010000";

/// Another agent of a higher preference comes first.
pub const SECOND_AGENT: [Row; 3] = [
    Row {
        at: 0,
        call: Call::Hear {
            agent: SECOND,
            preference: 20,
            life: 1800,
        },
        told: &[],
    },
    Row {
        at: 0,
        call: Call::Take {
            number: 0,
            from: None,
            packet: REQUEST,
        },
        told: &[
            "send 6000000000283a4020010db800010000000000000000000120010db80003000000000000000000779100b7350001000020010db800010000000000000000000320010db8000100000000000000000001",
        ],
    },
    Row {
        at: 0,
        call: Call::Take {
            number: 4,
            from: Some(HOME),
            packet: UPDATE,
        },
        told: &[
            "home self 20010db8000100000000000000000077 20010db8000300000000000000000077 1 3600000",
            "claimed self - 20010db8000100000000000000000077",
            "shielded 20010db8000100000000000000000001 20010db8000100000000000000000077 6000000000282b4020010db800010000000000000000000120010db8000300000000000000000077870202010000000020010db80001000000000000000000773b0106005df400000001038401020000",
        ],
    },
];

/// A plan is told to the home, whose registration ends with its time.
pub const PLAN: [Row; 3] = [
    REGISTERED,
    Row {
        at: 0,
        call: Call::Plan {
            valid: 8000,
            preferred: 4000,
        },
        told: &[
            "shielded 20010db8000100000000000000000001 20010db8000100000000000000000077 6000000000402b4020010db800010000000000000000000120010db80003000000000000000000773a0202010000000020010db80001000000000000000000779300703100000000030440e000001f4000000fa00000000020010db8000100000000000000000001",
        ],
    },
    Row {
        at: 3600000,
        call: Call::Tick,
        told: &["released self - 20010db8000100000000000000000077"],
    },
];
