//! A sink's memory of the Sends since the last Collect or Restart.
ghost use Rattle.devices.specs.Since.{lacked_one};
ghost use Rattle.std.specs.Prelude.{◌≡◌};

/// What the Sends since the last Collect or Restart came to.
// Three cases with names, and no Option of a bool.
#[derive(Clone, Copy)]
pub enum Since {
    /// There was none.
    Nothing,
    /// Each lacked space.
    Lacking,
    /// One did not lack space.
    Otherwise,
}

impl Since {
    /// After one more that lacked space.
    pub fn lacked_one(self) -> Since
        ensures { result ≡ lacked_one self }
    {
        match self {
            Since::Nothing | Since::Lacking => Since::Lacking,
            Since::Otherwise => Since::Otherwise,
        }
    }
}
