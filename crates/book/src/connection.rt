// Who stands at a point.

/// The parties at a point that has a user.
#[derive(Clone, Copy, PartialEq, Eq, Debug)]
pub struct Connection {
    /// The network user, who appoints the nominator.
    pub user: u8,
    /// Who nominates, and bears the swing of the point.
    pub nominator: u8,
    /// Who answers for the imbalance of the point.
    pub nominee: u8,
}
