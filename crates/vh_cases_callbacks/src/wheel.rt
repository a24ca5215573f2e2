ghost use Rattle.std.specs.Prelude.{◌≡◌, ◌<◌, ◌^◌, length};

use std::alloc::Global;
use std::marker::Brand;
use std::sync::ledger::{Blank, Ledger};
use std::test::Fail;
use vh_base::{NoMemory, Steps};
use vh_wheel::Wheel;

// Times of levels 0, 1, 5 and 7, two of them the same, and their order.
static TIMES: [u64; 8] = [5, 1099511627781, 5, 300, 255, 256, 9223372036854775808, 301];

static ORDER: [u64; 8] = [5, 5, 255, 256, 300, 301, 1099511627781, 9223372036854775808];

// Holds these times, each with its place among them, and takes them out.
fn taken<L: Ledger>(alloc: Global, blank: Blank, times: &[u64]) -> Result<Vec<(u64, u64)>, NoMemory>
    requires name { blank.name ≡ L.name }
    requires parts { blank.parts ≡ L.parts }
    requires some { 0 < blank.parts }
    requires few { length times.now < 2 ^ 30 }
{
    let mut steps = Steps::<L>::new(blank);
    let mut wheel = Wheel::new(alloc)?;
    for (place, time) in times.iter().enumerate() {
        wheel.schedule(alloc, *time, place as u64)?;
    }
    let mut all = Vec::new(alloc);
    for _ in 0..times.len() {
        let Some(time) = wheel.next_time(&mut steps) else {
            break;
        };
        if let Some(payload) = wheel.take_due(time, &mut steps) {
            all.push((time, payload))?;
        }
    }
    Ok(all)
}

// What is held is taken in the order of the times, each once.
#[test]
fn nodes_are_taken_in_time(rt: HostRuntime) -> Result<(), Fail> {
    let all = taken::<Brand>(rt.alloc(), Blank::new(1), &TIMES)?;
    assert!(rt; all.iter().map(|(time, _)| *time).eq(ORDER.iter().copied()));
    let mut places = 0;
    for (time, place) in &all {
        let place = *place as usize;
        assert!(rt; place < 8 && TIMES[place] == *time);
        places |= 1u64 << place;
    }
    assert!(rt; places == 255);
    Ok(())
}

// A node that was cancelled is not taken, and its number serves again.
fn cancelled<L: Ledger>(alloc: Global, blank: Blank) -> Result<(bool, u64, Option<u64>), NoMemory>
    requires name { blank.name ≡ L.name }
    requires parts { blank.parts ≡ L.parts }
    requires some { 0 < blank.parts }
{
    let mut steps = Steps::<L>::new(blank);
    let mut wheel = Wheel::new(alloc)?;
    let node = wheel.schedule(alloc, 7, 70)?;
    let payload = wheel.cancel(node);
    let again = wheel.schedule(alloc, 9, 90)?;
    Ok((again == node, payload, wheel.next_time(&mut steps)))
}

#[test]
fn cancelled_nodes_serve_again(rt: HostRuntime) -> Result<(), Fail> {
    let (again, payload, time) = cancelled::<Brand>(rt.alloc(), Blank::new(1))?;
    assert!(rt; again && payload == 70 && time == Some(9));
    Ok(())
}
