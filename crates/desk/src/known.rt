//! What was seen at earlier looks.
//!
//! 1. What one account has paid another is never taken back, so a ring that wasn't there before goes through an account
//!    that pays somebody whom it hadn't paid before. Only from such accounts is a ring searched.

ghost use Rattle.std.specs.Prelude.{IfOk};
ghost use Rattle.std.specs.List.{AllByRecursion};
ghost use Rattle.graph_model.specs.Graph.{Graph};
ghost use Rattle.graph_image.specs.Images.{IsImageOf};
ghost use Rattle.desk.specs.Rings.{IsRing};

use crate::refusal::LookRefusal;
use crate::ring::{Ring, have_one_label};
use crate::rings::ring_of;
use graph_image::{Image, Table};
use std::alloc::Global;
use std::collections::BTreeMap;
use std::thread::Threads;

/// How many others accounts had paid at the last look, and the rings that were found.
#[derive(Drop)]
pub struct KnownRings {
    paid: BTreeMap<u64, usize>,
    /// The accounts of each ring, in rising order.
    rings: Vec<Vec<u64>>,
}

impl KnownRings {
    /// Nobody has paid anybody.
    pub fn nothing(alloc: Global) -> KnownRings {
        KnownRings {
            paid: BTreeMap::new(alloc),
            rings: Vec::new(alloc),
        }
    }

    /// The rings of an image that weren't known, and are from now on.
    pub fn new_rings<R: Threads + Sync>(
        &mut self,
        rt: &R,
        alloc: Global,
        image: &Image,
        labels: &Table,
    ) -> Result<Vec<Ring>, LookRefusal>
        ensures { IfOk result (λ rings. (g : Graph) → IsImageOf image.now g
            → AllByRecursion (λ ring. IsRing g ring.accounts.items) rings.items) }
    {
        let mut found = Vec::new(alloc);
        'places: for place in 0..image.len() {
            let account = image.vertices()[place];
            if !self.has_paid_more(account, image.out(place).len())? {
                continue;
            }
            let Some(accounts) = ring_of(rt, alloc, image, account)? else {
                continue;
            };
            if self.learns(&accounts)? {
                let is_one_group = have_one_label(image, labels, accounts.as_slice());
                found.push(Ring {
                    accounts,
                    is_one_group,
                })?;
            }
        }
        Ok(found)
    }

    /// Whether an account has paid more others than it had at the last look. From now on that is known.
    fn has_paid_more(&mut self, account: u64, count: usize) -> Result<bool, LookRefusal> {
        let before = self.paid.insert(account, count)?;
        Ok(before.unwrap_or(0) < count)
    }

    /// Whether a ring wasn't known. From now on it is.
    fn learns(&mut self, ring: &Vec<u64>) -> Result<bool, LookRefusal> {
        let mut accounts = ring.clone()?;
        // A ring is found from each of its accounts, and is the same one.
        accounts.sort_unstable();
        if self.rings.iter().any(|known| *known == accounts) {
            return Ok(false);
        }
        self.rings.push(accounts)?;
        Ok(true)
    }
}
