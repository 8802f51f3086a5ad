//! What a driven core keeps for each session.
ghost use Rattle.std.specs.Prelude.{◌≡◌, ℕ, ◌+◌, ◌≤◌, ◌<◌, List, [], ◌∷◌, ◌++◌, length, replicate, slice_index_or, slice_set, vec_capacity, IfOk, Some, None};
ghost use Rattle.step_registry.specs.Pins.{PinView};
ghost use Rattle.step_registry.specs.Slots.{no_slot, pins_in};

use crate::pins::{Pins, StepPin};
use mesh_base::NoMemory;
use std::alloc::Global;
use std::mem;

// The step that a session has out, and how many boxes the turns have that it has done.
pub struct Slot {
    pub pin: Option<StepPin>,
    pub asked: u32,
}

// Empty slots, and room for as many pins.
pub fn make_room(alloc: Global, count: u32) -> Result<(Vec<Slot>, Vec<StepPin>), NoMemory>
    ensures { IfOk result (λ r. (r.0.items ≡ replicate count no_slot) × (r.1.items ≡ []) × (vec_capacity r.1 ≡ count)) }
{
    let pins: Vec<StepPin> = Vec::with_capacity(alloc, count as usize)?;
    match Vec::with_capacity(alloc, count as usize) {
        Ok(slots) => Ok((fill(slots, count), pins)),
        Err(refused) => {
            pins.destroy_empty();
            Err(refused)
        }
    }
}

fn fill(mut slots: Vec<Slot>, count: u32) -> Vec<Slot>
    requires empty { slots.items ≡ [] }
    requires room { vec_capacity slots ≡ count }
    ensures { result.items ≡ replicate count no_slot }
{
    for _slot in 0..count {
        slots.push_reserved(Slot {
            pin: None,
            asked: 0,
        });
    }
    slots
}

// Puts a pin into its session's slot, which has none.
pub fn put_slot(slots: &mut Vec<Slot>, s: u32, pin: StepPin)
    requires there { s < length slots.old.items }
    requires empty { (slice_index_or slots.old.items s no_slot).pin ≡ None }
    ensures { slots.new.items ≡ slice_set slots.old.items s
        (record { pin = Some pin; asked = (slice_index_or slots.old.items s no_slot).asked }) }
{
    let slot = &mut slots[s as usize];
    match mem::replace(&mut slot.pin, Some(pin)) {
        None => {}
        Some(_) => unreachable!(),
    }
}

// Takes the pin out of its slot, whose session has asked so many boxes more.
pub fn take_slot(slots: &mut Vec<Slot>, s: u32, more: u32) -> StepPin
    requires there { s < length slots.old.items }
    requires full { (pin : PinView) × ((slice_index_or slots.old.items s no_slot).pin ≡ Some pin) }
    requires few { (slice_index_or slots.old.items s no_slot).asked + more ≤ 100000 }
    ensures slots { slots.new.items ≡ slice_set slots.old.items s
        (record { pin = None; asked = (slice_index_or slots.old.items s no_slot).asked + more }) }
    ensures pin { Some result ≡ (slice_index_or slots.old.items s no_slot).pin }
{
    let slot = &mut slots[s as usize];
    slot.asked += more;
    match mem::replace(&mut slot.pin, None) {
        Some(pin) => pin,
        None => unreachable!(),
    }
}

// The pins that are there, in the order of their slots.
pub fn collect(mut slots: Vec<Slot>, mut pins: Vec<StepPin>) -> Pins
    requires empty { pins.items ≡ [] }
    requires room { length slots.items ≤ vec_capacity pins }
    ensures { result ≡ pins_in slots.items }
{
    while !slots.is_empty() {
        let Slot { pin, asked: _ } = slots.remove(0);
        match pin {
            Some(pin) => pins.push_reserved(pin),
            None => {}
        }
    }
    slots.destroy_empty();
    Pins::of(pins)
}
