//! Readers of one group of an instance.
ghost use Rattle.std.specs.Prelude.{◌≡◌, ◌<◌, ◌≤◌, length, IfSome};
ghost use Rattle.bw_model.specs.Groups.{IsInstance, weight_of, parent_of, limit_of};

use crate::instance::Instance;
use crate::limits::MIN_WEIGHT;

impl Instance {
    /// The number of rows, 1 to 16384.
    pub fn group_count(&self) -> u32
        ensures count { result ≡ length self.now.rows }
        ensures valid { IsInstance self.now }
    {
        self.rows().len() as u32
    }

    /// The row of the parent, which is before the rows of its children. The root has none.
    pub fn parent(&self, g: u32) -> Option<u32>
        requires { g < length self.now.rows }
        ensures value { result ≡ parent_of self.now.rows g }
        ensures before { IfSome result (λ p. p < g) }
    {
        let _rows = self.rows();
        self.row(g).parent
    }

    /// The weight of a group, 1 to 10000.
    pub fn weight(&self, g: u32) -> u64
        requires { g < length self.now.rows }
        ensures value { result ≡ weight_of self.now.rows g }
        ensures least { MIN_WEIGHT ≤ result }
    {
        let _rows = self.rows();
        self.row(g).weight
    }

    /// The limit of a group in slices per period. At the root it is the capacity of the host.
    pub fn limit(&self, g: u32) -> Option<u64>
        requires { g < length self.now.rows }
        ensures { result ≡ limit_of self.now g }
    {
        if g == 0 {
            Some(self.shape().capacity())
        } else {
            self.row(g).limit
        }
    }
}
