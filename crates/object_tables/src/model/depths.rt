ghost use Rattle.std.specs.Prelude.{◌≡◌, ◌+◌, ◌≤◌, ◌⊎◌, IfOk, slice_index};
ghost use Rattle.object_tables.specs.Models.{IsLive};
ghost use Rattle.object_tables.specs.Climbs.{AreDepths, IsGreatestBefore};
ghost use Rattle.object_tables.specs.Containment.{IsAcyclic, IsDepth, IsGreatestDepth};

use crate::model::Model;
use crate::model::cycles::zeros;
use crate::value::ObjId;
use mof_metamodel::NoMemory;
use std::alloc::Global;

impl<'m> Model<'m> {
    /// The depth of an object: 1 for a top object, and one more for each container above it. In the number of containers.
    pub fn depth(&self, o: ObjId) -> u32
        requires live { IsLive self.now o.0 }
        requires acyclic { IsAcyclic self.now }
        ensures { IsDepth self.now o.0 result }
    {
        // No path without a repeat is longer than this.
        let _ = self.end();
        let mut at = o;
        let mut depth = 1;
        while let Some((container, _)) = self.container(at) {
            at = container;
            depth += 1;
        }
        depth
    }

    /// The greatest depth of an object, or 0 where there is no object. In time linear in the objects and their properties;
    /// it takes four bytes for each number of an object, and gives them back.
    pub fn greatest_depth(&self, alloc: Global) -> Result<u32, NoMemory>
        requires { IsAcyclic self.now }
        ensures { IfOk result (IsGreatestDepth self.now) }
    {
        let mut depths = zeros(alloc, self.end())?;
        let mut greatest = 0;
        for o in 0..self.end() {
            greatest = self.deepen(depths.as_mut_slice(), greatest, ObjId(o));
        }
        Ok(greatest)
    }

    /// The greatest depth so far, with one more object.
    fn deepen(&self, depths: &mut [u32], greatest: u32, o: ObjId) -> u32
        requires acyclic { IsAcyclic self.now }
        requires before { IsGreatestBefore self.now depths.old greatest o.0 }
        ensures { IsGreatestBefore self.now depths.new result (o.0 + 1) }
    {
        if !self.is_live(o) {
            return greatest;
        }
        let depth = self.depth_by(depths, o);
        self.put_depths(depths, o, depth);
        // What every model keeps is known here.
        let _ = self.end();
        greater(greatest, depth)
    }

    /// The depth of an object, by the first depth that is found on the way up.
    fn depth_by(&self, depths: &[u32], o: ObjId) -> u32
        requires live { IsLive self.now o.0 }
        requires acyclic { IsAcyclic self.now }
        requires depths { AreDepths self.now depths.now }
        ensures { IsDepth self.now o.0 result }
    {
        // No path without a repeat is longer than this.
        let _ = self.end();
        let mut at = o;
        let mut below = 0;
        loop {
            let found = depths[at.0 as usize];
            if found != 0 {
                let depth = below + found;
                return depth;
            }
            match self.container(at) {
                Some((container, _)) => at = container,
                None => {
                    let top = below + 1;
                    return top;
                }
            }
            below += 1;
        }
    }

    /// Puts down the depth of an object and of those above it whose depth isn't found yet.
    fn put_depths(&self, depths: &mut [u32], o: ObjId, depth: u32)
        requires live { IsLive self.now o.0 }
        requires depth { IsDepth self.now o.0 depth }
        requires depths { AreDepths self.now depths.old }
        ensures { AreDepths self.now depths.new }
    {
        // What every model keeps is known here.
        let _ = self.end();
        let mut at = o;
        let mut left = depth;
        while depths[at.0 as usize] == 0 {
            depths[at.0 as usize] = left;
            match self.container(at) {
                Some((container, _)) => at = container,
                None => return,
            }
            left -= 1;
        }
    }
}

/// The greater of two numbers.
fn greater(a: u32, b: u32) -> u32
    ensures first { a ≤ result }
    ensures second { b ≤ result }
    ensures one { (result ≡ a) ⊎ (result ≡ b) }
{
    if a < b { b } else { a }
}
