// What a seat knows, for the proofs. No value of these types is made.
use crate::kept::Kept;
use std::collections::LinkedList;

/// Where a seat is in the order of turns. A served seat has noted the history that it found.
pub enum Stage<E> {
    Idle,
    Waiting(u64),
    Served(u64, LinkedList<E>),
}

/// What a seat knew when another one took it in.
pub struct Knowledge<H, E> {
    pub theme: Option<H>,
    pub number: u64,
    pub seen: LinkedList<E>,
    pub known: LinkedList<u64>,
}

pub struct View<H, E> {
    /// `None` once another seat took this one in.
    pub theme: Option<H>,
    pub number: u64,
    pub seen: LinkedList<E>,
    /// The words that it loaded, the newest first.
    pub known: LinkedList<u64>,
    /// The words that it stored, the newest first.
    pub shown: LinkedList<u64>,
    pub stage: Stage<E>,
    /// How many numbers the first seat gave out.
    pub given: u64,
    /// The seats that this one took in.
    pub others: LinkedList<Knowledge<H, E>>,
}

pub type ViewOf<T> = View<<T as Kept>::Theme, <T as Kept>::Entry>;
