//! Stored runs of the program.

/// A run of a node or of a hub: what goes in, and what comes out.
#[derive(Clone, Copy)]
pub struct Case {
    pub words: [&'static str; 2],
    pub input: &'static [u8],
    /// The datagrams that come, with gaps between them.
    pub coming: &'static [Option<Datagram>],
    /// The calls that fail, of `listen_on`, `send` and `receive`, counted from 1; 0 is none.
    pub fails: [u64; 3],
    pub status: u8,
    pub text: &'static [u8],
    /// The datagrams that are sent, each with its port.
    pub sent: &'static [(u16, Datagram)],
}

/// A datagram: hexadecimal digits, and zero bytes behind them.
#[derive(Clone, Copy)]
pub struct Datagram {
    pub digits: &'static [u8],
    pub zeros: usize,
}

// A Home Test Init in a frame, and the Home Test that answers it.
const INIT: Datagram = Datagram {
    digits: b"00600000000010874020010db800010000000000000000007720010db80002000000000000000000023b010100576500000102030405060708",
    zeros: 0,
};

const HOT: Datagram = Datagram {
    digits: b"00600000000018874020010db800020000000000000000000220010db80001000000000000000000773b0203000a1b000001020304050607081e8969190048c356",
    zeros: 0,
};

const ONE_CLAIM: &[u8] = b"mip 1\nport 29000\nclaim 1 20010db8000200000000000000000002 29001\n";

const TWO_COPIES: &[u8] =
    b"mip 1\nport 9000\nclaim 1 20010db8000200000000000000000002 9001\ncopies 2 2\nrelease 4 20010db8000200000000000000000002\n";

const CORRESPONDENT: &[u8] =
    b"mip 1\nseed 000102030405060708090a0b0c0d0e0f101112131415161718191a1b1c1d1e1f\nself 0\nport 9001\ndefault 9000\ncorrespondent 20010db8000200000000000000000002 2\n";

pub const HUB_ADDRESS_MOVES_TO_ANOTHER_PORT: Case = Case {
    words: ["hub", "3"],
    input: b"mip 1\nport 29000\nclaim 1 20010db8000200000000000000000002 29001\nclaim 2 20010db8000200000000000000000002 29002\nrelease 3 20010db8000200000000000000000002\nrelease 3 20010db8000200000000000000000002\nclaim 3 20010db8000200000000000000000002 29001\n",
    coming: &[Some(INIT), Some(INIT), Some(INIT)],
    fails: [0, 0, 0],
    status: 0,
    text: b"claim 20010db8000200000000000000000002 29001\ngot 0\nto 0 29001\nclaim 20010db8000200000000000000000002 29002\ngot 1\nto 1 29002\nfree 20010db8000200000000000000000002\nidle\nclaim 20010db8000200000000000000000002 29001\ngot 2\nto 2 29001\n",
    sent: &[(29001, INIT), (29002, INIT), (29001, INIT)],
};

pub const HUB_ADVERTISEMENT_FAILS: Case = Case {
    words: ["hub", "3"],
    input: b"mip 1\nport 29000\nclaim 1 20010db8000200000000000000000002 29001\nadvertise 2 20010db800010000 yes 29002\n",
    coming: &[Some(INIT), Some(INIT)],
    fails: [0, 2, 0],
    status: 7,
    text: b"claim 20010db8000200000000000000000002 29001\ngot 0\nto 0 29001\n",
    sent: &[(29001, INIT)],
};

pub const HUB_ADVERTISES: Case = Case {
    words: ["hub", "1"],
    input: b"mip 1\nport 29000\nadvertise 1 20010db800010000 yes 29001\nadvertise 1 20010db800030000 no 29002\n",
    coming: &[],
    fails: [0, 0, 0],
    status: 0,
    text: b"advert 20010db800010000 29001\nadvert 20010db800030000 29002\n",
    sent: &[
        (
            29001,
            Datagram {
                digits: b"006000000000303afffe800000000000000000000000000001ff0200000000000000000000000000018600c368402007080000000000000000030440c0ffffffffffffffff0000000020010db8000100000000000000000000",
                zeros: 0,
            },
        ),
        (
            29002,
            Datagram {
                digits: b"006000000000303afffe800000000000000000000000000001ff0200000000000000000000000000018600c386400007080000000000000000030440c0ffffffffffffffff0000000020010db8000300000000000000000000",
                zeros: 0,
            },
        ),
    ],
};

pub const HUB_FRAME_OF_4097_BYTES: Case = Case {
    words: ["hub", "2"],
    input: ONE_CLAIM,
    coming: &[
        Some(Datagram {
            digits: b"00600000000fd83b4020010db800010000000000000000007720010db8000200000000000000000002",
            zeros: 4056,
        }),
        Some(Datagram {
            digits: b"00600000000fd73b4020010db800010000000000000000007720010db8000200000000000000000002",
            zeros: 4055,
        }),
    ],
    fails: [0, 0, 0],
    status: 0,
    text: b"claim 20010db8000200000000000000000002 29001\ngot 0\ndropped 0 frame\ngot 1\nto 1 29001\n",
    sent: &[(
        29001,
        Datagram {
            digits: b"00600000000fd73b4020010db800010000000000000000007720010db8000200000000000000000002",
            zeros: 4055,
        },
    )],
};

pub const HUB_FRAME_OF_5000_BYTES: Case = Case {
    words: ["hub", "1"],
    input: ONE_CLAIM,
    coming: &[Some(Datagram {
        digits: b"0060000000135f3b4020010db800010000000000000000007720010db8000200000000000000000002",
        zeros: 4959,
    })],
    fails: [0, 0, 0],
    status: 0,
    text: b"claim 20010db8000200000000000000000002 29001\ngot 0\ndropped 0 frame\n",
    sent: &[],
};

pub const HUB_FRAMES_THAT_ARE_NONE: Case = Case {
    words: ["hub", "7"],
    input: ONE_CLAIM,
    coming: &[
        Some(Datagram {
            digits: b"",
            zeros: 0,
        }),
        Some(Datagram {
            digits: b"02",
            zeros: 0,
        }),
        Some(Datagram {
            digits: b"0120010db8000100000000000000000077",
            zeros: 0,
        }),
        Some(Datagram {
            digits: b"00",
            zeros: 0,
        }),
        Some(Datagram {
            digits: b"00600000000010874020010db800010000000000000000007720010db80002000000000000000000023b0101005765000001020304050607",
            zeros: 0,
        }),
        Some(Datagram {
            digits: b"00600000000010874020010db800010000000000000000007720010db80002000000000000000000",
            zeros: 0,
        }),
        Some(Datagram {
            digits: b"0120010db800010000000000000000007720010db8000100000000000000000001600000000010874020010db800010000000000000000007720010db80002000000000000000000023b010100576500000102030405060708",
            zeros: 0,
        }),
    ],
    fails: [0, 0, 0],
    status: 0,
    text: b"claim 20010db8000200000000000000000002 29001\ngot 0\ndropped 0 frame\ngot 1\ndropped 1 frame\ngot 2\ndropped 2 frame\ngot 3\ndropped 3 short\ngot 4\ndropped 4 length\ngot 5\ndropped 5 short\ngot 6\nto 6 29001\n",
    sent: &[(
        29001,
        Datagram {
            digits: b"0120010db800010000000000000000007720010db8000100000000000000000001600000000010874020010db800010000000000000000007720010db80002000000000000000000023b010100576500000102030405060708",
            zeros: 0,
        },
    )],
};

pub const HUB_GAPS_BETWEEN_DATAGRAMS: Case = Case {
    words: ["hub", "3"],
    input: ONE_CLAIM,
    coming: &[Some(INIT), None, Some(INIT)],
    fails: [0, 0, 0],
    status: 0,
    text: b"claim 20010db8000200000000000000000002 29001\ngot 0\nto 0 29001\ngot 1\nto 1 29001\n",
    sent: &[(29001, INIT), (29001, INIT)],
};

pub const HUB_LINES_OF_ONE_TURN_IN_THEIR_ORDER: Case = Case {
    words: ["hub", "1"],
    input: b"mip 1\nport 29000\nrelease 1 20010db8000200000000000000000002\nclaim 1 20010db8000200000000000000000002 29001\nclaim 1 20010db8000200000000000000000002 29002\n",
    coming: &[Some(INIT)],
    fails: [0, 0, 0],
    status: 0,
    text: b"idle\nclaim 20010db8000200000000000000000002 29001\nclaim 20010db8000200000000000000000002 29002\ngot 0\nto 0 29002\n",
    sent: &[(29002, INIT)],
};

pub const HUB_LISTEN_FAULT: Case = Case {
    words: ["hub", "2"],
    input: ONE_CLAIM,
    coming: &[Some(INIT)],
    fails: [1, 0, 0],
    status: 7,
    text: b"",
    sent: &[],
};

pub const HUB_NO_COPY_AND_FOUR: Case = Case {
    words: ["hub", "3"],
    input: b"mip 1\nport 29000\nclaim 1 20010db8000200000000000000000002 29001\ncopies 1 0\ncopies 2 4\n",
    coming: &[Some(INIT), Some(INIT), Some(INIT)],
    fails: [0, 0, 0],
    status: 0,
    text: b"claim 20010db8000200000000000000000002 29001\ngot 0\nlost 0\ngot 1\nto 1 29001\nto 1 29001\nto 1 29001\nto 1 29001\ngot 2\nto 2 29001\n",
    sent: &[
        (29001, INIT),
        (29001, INIT),
        (29001, INIT),
        (29001, INIT),
        (29001, INIT),
    ],
};

pub const HUB_PACKET_FOR_NOBODY: Case = Case {
    words: ["hub", "1"],
    input: ONE_CLAIM,
    coming: &[Some(Datagram {
        digits: b"006000000000003b4020010db800020000000000000000000220010db8000100000000000000000077",
        zeros: 0,
    })],
    fails: [0, 0, 0],
    status: 0,
    text: b"claim 20010db8000200000000000000000002 29001\ngot 0\ngone 0 noholder\n",
    sent: &[],
};

pub const HUB_RECEIVE_FAULT_IN_TURN_2: Case = Case {
    words: ["hub", "3"],
    input: ONE_CLAIM,
    coming: &[Some(INIT), Some(INIT)],
    fails: [0, 0, 2],
    status: 7,
    text: b"claim 20010db8000200000000000000000002 29001\ngot 0\nto 0 29001\n",
    sent: &[(29001, INIT)],
};

pub const HUB_SECOND_COPY_FAILS: Case = Case {
    words: ["hub", "3"],
    input: b"mip 1\nport 29000\nclaim 1 20010db8000200000000000000000002 29001\ncopies 2 2\n",
    coming: &[Some(INIT), Some(INIT)],
    fails: [0, 3, 0],
    status: 7,
    text: b"claim 20010db8000200000000000000000002 29001\ngot 0\nto 0 29001\n",
    sent: &[(29001, INIT), (29001, INIT)],
};

pub const HUB_SEND_FAULT: Case = Case {
    words: ["hub", "4"],
    input: TWO_COPIES,
    coming: &[Some(INIT), Some(INIT), Some(INIT), Some(INIT)],
    fails: [0, 2, 0],
    status: 7,
    text: b"claim 20010db8000200000000000000000002 9001\ngot 0\nto 0 9001\n",
    sent: &[(9001, INIT)],
};

pub const HUB_TWO_COPIES: Case = Case {
    words: ["hub", "4"],
    input: TWO_COPIES,
    coming: &[Some(INIT), Some(INIT), Some(INIT), Some(INIT)],
    fails: [0, 0, 0],
    status: 0,
    text: b"claim 20010db8000200000000000000000002 9001\ngot 0\nto 0 9001\ngot 1\nto 1 9001\nto 1 9001\ngot 2\nto 2 9001\nfree 20010db8000200000000000000000002\ngot 3\ngone 3 noholder\n",
    sent: &[(9001, INIT), (9001, INIT), (9001, INIT), (9001, INIT)],
};

pub const NODE_AGENT_ALONE: Case = Case {
    words: ["node", "1"],
    input: b"mip 1\nseed 000102030405060708090a0b0c0d0e0f101112131415161718191a1b1c1d1e1f\nself 0\nport 9001\ndefault 9000\nagent 20010db8000100000000000000000001 10 1800 16\nserve 20010db8000100000000000000000077\n",
    coming: &[],
    fails: [0, 0, 0],
    status: 0,
    text: b"at 0\n",
    sent: &[],
};

pub const NODE_BAD_FRAME: Case = Case {
    words: ["node", "2"],
    input: CORRESPONDENT,
    coming: &[Some(Datagram {
        digits: b"02",
        zeros: 0,
    })],
    fails: [0, 0, 0],
    status: 0,
    text: b"at 0\ndropped self 0 frame\n",
    sent: &[],
};

pub const NODE_FIRST_SEND_FAULT: Case = Case {
    words: ["node", "3"],
    input: CORRESPONDENT,
    coming: &[Some(INIT), Some(INIT)],
    fails: [0, 1, 0],
    status: 7,
    text: b"",
    sent: &[],
};

pub const NODE_HOME_TEST: Case = Case {
    words: ["node", "1"],
    input: CORRESPONDENT,
    coming: &[Some(INIT)],
    fails: [0, 0, 0],
    status: 0,
    text: b"at 0\nhanded 0 self\nsent 1 self - hot 600000000018874020010db800020000000000000000000220010db80001000000000000000000773b0203000a1b000001020304050607081e8969190048c356\n",
    sent: &[(9000, HOT)],
};

pub const NODE_PAYLOAD_ROUTE: Case = Case {
    words: ["node", "1"],
    input: b"mip 1\nseed 000102030405060708090a0b0c0d0e0f101112131415161718191a1b1c1d1e1f\nself 0\nport 9001\nroute 20010db800010000 9002\ndefault 9000\ncorrespondent 20010db8000200000000000000000002 2\npayload 1 20010db8000100000000000000000077 17 aa\n",
    coming: &[],
    fails: [0, 0, 0],
    status: 0,
    text: b"at 0\nsent 0 self - data 600000000001114020010db800020000000000000000000220010db8000100000000000000000077aa\n",
    sent: &[(
        9002,
        Datagram {
            digits: b"00600000000001114020010db800020000000000000000000220010db8000100000000000000000077aa",
            zeros: 0,
        },
    )],
};

pub const NODE_RECEIVE_FAULT: Case = Case {
    words: ["node", "10"],
    input: CORRESPONDENT,
    coming: &[Some(INIT), Some(INIT), Some(INIT)],
    fails: [0, 0, 3],
    status: 7,
    text: b"at 0\nhanded 0 self\nsent 1 self - hot 600000000018874020010db800020000000000000000000220010db80001000000000000000000773b0203000a1b000001020304050607081e8969190048c356\nhanded 2 self\nsent 3 self - hot 600000000018874020010db800020000000000000000000220010db80001000000000000000000773b0203000a1b000001020304050607081e8969190048c356\n",
    sent: &[(9000, HOT), (9000, HOT)],
};

pub const NODE_SECOND_SEND_FAULT: Case = Case {
    words: ["node", "3"],
    input: CORRESPONDENT,
    coming: &[Some(INIT), Some(INIT)],
    fails: [0, 2, 0],
    status: 7,
    text: b"at 0\nhanded 0 self\nsent 1 self - hot 600000000018874020010db800020000000000000000000220010db80001000000000000000000773b0203000a1b000001020304050607081e8969190048c356\n",
    sent: &[(9000, HOT)],
};
