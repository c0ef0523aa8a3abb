//! What the types of a call's values say of them, where a definition speaks of numbers of any size: a name fits in two bytes, and a
//! lent job part is bytes. It is known only of values that are read, so these functions read them and do nothing else.
ghost use Rattle.records.specs.Bytes.{Bytes};
ghost use Rattle.replay.specs.Calls.{asked};
ghost use Rattle.replay.specs.Short.{ShortAsk};
ghost use Rattle.std.specs.Prelude.{◌≤◌, All};

use crate::calls::Call;

fn name_fits(name: u16)
    ensures fits { name ≤ 65535 }
{}

fn part_fits(part: &[u8])
    ensures fits { Bytes part.now }
{}

pub(crate) fn call_fits(call: &Call<&[u8]>)
    ensures fits { ShortAsk (asked call.now) }
{
    match *call {
        Call::OfferTask(t) => name_fits(t.name),
        Call::OfferMessage(m) => name_fits(m.name),
        Call::PlaceTask(t) => name_fits(t.name),
        Call::PlaceMessage(m) => name_fits(m.name),
        Call::Load(part) => part_fits(part),
        _ => (),
    }
}

pub(crate) fn calls_fit(calls: &[Call<&[u8]>])
    ensures fits { All (λ call. ShortAsk (asked call)) calls.now }
{
    for call in calls {
        call_fits(call);
    }
}
