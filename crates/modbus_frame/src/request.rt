//! Requests.

ghost use Rattle.std.specs.Prelude.{◌≡◌};
ghost use Rattle.modbus_frame.specs.Requests.{IsExpect, request_frame};

use crate::Expect;

/// The bytes of a request.
///
/// The function is 3 or 4, and there are from 1 to 125 registers.
#[tactic(auto, unfolding(crate::specs::Requests::request_frame))]
pub fn write_request(expect: &Expect) -> [u8; 12]
    requires expect { IsExpect expect.now }
    ensures request { result ≡ request_frame expect.now }
{
    let [transaction_high, transaction_low] = expect.transaction.to_be_bytes();
    let [start_high, start_low] = expect.start.to_be_bytes();
    [
        transaction_high,
        transaction_low,
        0,
        0,
        0,
        6,
        expect.unit,
        expect.function,
        start_high,
        start_low,
        0,
        expect.quantity,
    ]
}
