// An order, as it is written on a line:
//
//     +3 PATTERN    files the pattern at place 3
//     -3            withdraws what stands there
//     ?3 LINE       asks what the pattern there reads of the line
ghost use Rattle.std.specs.Prelude.{◌≡◌, ◌<◌, ◌≤◌, length, MatchOption};
ghost use Rattle.orders.specs.Orders.{wanted, IsOrder, NoOrder, OneOrder, FrontSuffices};

/// An order has at most so many bytes.
pub const MOST: usize = 200;

/// So many bytes of a line are enough to tell which order it is (`FrontSuffices`): one more than an order may have tells that it is none.
pub const FRONT: usize = MOST + 1;

/// An order: to file a pattern at a place, to withdraw what stands there, or to ask what the pattern there reads of a line.
#[derive(Clone, Copy, PartialEq, Debug)]
pub enum Order<'a> {
    File(usize, &'a [u8]),
    Withdraw(usize),
    Ask(usize, &'a [u8]),
}

impl<'a> Order<'a> {
    /// The order that the bytes are, if they are one.
    #[tactic(auto, using(crate::proofs::Readings::one_order, crate::proofs::Readings::front_suffices))]
    pub fn read(bytes: &'a [u8]) -> Option<Order<'a>>
        ensures read { MatchOption result (NoOrder bytes.now) (λ order. IsOrder (wanted order) bytes.now) }
        ensures no_other { OneOrder bytes.now }
        ensures front { FrontSuffices bytes.now }
    {
        match bytes {
            _ if bytes.len() > MOST => None,
            [b'+', digit @ b'0'..=b'9', b' ', pattern @ ..] => {
                Some(Order::File(usize::from(digit - b'0'), pattern))
            }
            [b'-', digit @ b'0'..=b'9'] => Some(Order::Withdraw(usize::from(digit - b'0'))),
            [b'?', digit @ b'0'..=b'9', b' ', line @ ..] => {
                Some(Order::Ask(usize::from(digit - b'0'), line))
            }
            _ => None,
        }
    }
}
