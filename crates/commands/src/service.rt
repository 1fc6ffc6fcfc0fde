//! A service of a request, and what it asks for.

ghost use Rattle.std.specs.Prelude.{◌≡◌, IsTrue};
ghost use Rattle.commands.specs.Services.{are_initial, are_update, are_termination};

use crate::quantity::Quantity;
use crate::used::UsedParts;
use std::marker::Model;

/// What a service asks for (Requested-Service-Unit, RFC 8506 section 8.18).
#[derive(Clone, Copy, Debug, PartialEq, Eq)]
pub enum Requested {
    /// As much as the rating group grants at a time: an empty Requested-Service-Unit.
    Slice,
    /// This many units.
    Units(Quantity),
}

/// A service of a request, by its rating group (Multiple-Services-Credit-Control, RFC 8506 section
/// 8.16).
#[derive(Clone, Debug, PartialEq, Eq)]
pub struct Service {
    /// Rating-Group (RFC 8506 section 8.29).
    pub group: u32,
    /// What it asks for, where it does.
    pub requested: Option<Requested>,
    /// What it reports, where it does.
    pub used: Option<UsedParts>,
}

// It is written out, so that a caller doesn't prove again how each part is dropped.
impl Drop for Service {
    fn drop(self) {
        let Service {
            group: _,
            requested: _,
            used: _,
        } = self;
    }
}

/// The services of an initial request, in its order: 1 to 16, each asks for units and none reports
/// any. No rating group comes twice.
///
/// Contracts see the list of services.
#[derive(Clone, Debug)]
pub struct InitialServices {
    list: Vec<Service>,
}

// It is written out, so that a caller doesn't prove again how each part is dropped.
impl Drop for InitialServices {
    fn drop(self) {
        let InitialServices { list: _ } = self;
    }
}

impl Model for InitialServices {
    ghost use Rattle.std.specs.Prelude.{List, IsTrue};
    ghost use Rattle.commands.specs.declared.service.Service.{Service};
    ghost use Rattle.commands.specs.Services.{are_initial};

    ghost Value = { List Service };

    ghost view = { λ s. s.list.items };

    ghost invariant = { λ s. IsTrue (are_initial s.list.items) };
}

impl InitialServices {
    /// These services.
    pub fn new(list: Vec<Service>) -> InitialServices
        requires { IsTrue (are_initial list.items) }
        ensures { result ≡ list.items }
    {
        InitialServices { list }
    }

    /// The services, in the order of the request.
    pub fn as_slice(&self) -> &[Service]
        ensures value { result.now ≡ self.now }
        ensures rule { IsTrue (are_initial self.now) }
    {
        self.list.as_slice()
    }
}

/// The services of an update, in its order: 1 to 16, each may ask for units and may report some. No
/// rating group comes twice.
///
/// Contracts see the list of services.
#[derive(Clone, Debug)]
pub struct UpdateServices {
    list: Vec<Service>,
}

// It is written out, so that a caller doesn't prove again how each part is dropped.
impl Drop for UpdateServices {
    fn drop(self) {
        let UpdateServices { list: _ } = self;
    }
}

impl Model for UpdateServices {
    ghost use Rattle.std.specs.Prelude.{List, IsTrue};
    ghost use Rattle.commands.specs.declared.service.Service.{Service};
    ghost use Rattle.commands.specs.Services.{are_update};

    ghost Value = { List Service };

    ghost view = { λ s. s.list.items };

    ghost invariant = { λ s. IsTrue (are_update s.list.items) };
}

impl UpdateServices {
    /// These services.
    pub fn new(list: Vec<Service>) -> UpdateServices
        requires { IsTrue (are_update list.items) }
        ensures { result ≡ list.items }
    {
        UpdateServices { list }
    }

    /// The services, in the order of the request.
    pub fn as_slice(&self) -> &[Service]
        ensures value { result.now ≡ self.now }
        ensures rule { IsTrue (are_update self.now) }
    {
        self.list.as_slice()
    }
}

/// The services of a termination, in its order: at most 16, none asks for units and each may report
/// some. No rating group comes twice.
///
/// Contracts see the list of services.
#[derive(Clone, Debug)]
pub struct TerminationServices {
    list: Vec<Service>,
}

// It is written out, so that a caller doesn't prove again how each part is dropped.
impl Drop for TerminationServices {
    fn drop(self) {
        let TerminationServices { list: _ } = self;
    }
}

impl Model for TerminationServices {
    ghost use Rattle.std.specs.Prelude.{List, IsTrue};
    ghost use Rattle.commands.specs.declared.service.Service.{Service};
    ghost use Rattle.commands.specs.Services.{are_termination};

    ghost Value = { List Service };

    ghost view = { λ s. s.list.items };

    ghost invariant = { λ s. IsTrue (are_termination s.list.items) };
}

impl TerminationServices {
    /// These services.
    pub fn new(list: Vec<Service>) -> TerminationServices
        requires { IsTrue (are_termination list.items) }
        ensures { result ≡ list.items }
    {
        TerminationServices { list }
    }

    /// The services, in the order of the request.
    pub fn as_slice(&self) -> &[Service]
        ensures value { result.now ≡ self.now }
        ensures rule { IsTrue (are_termination self.now) }
    {
        self.list.as_slice()
    }
}

impl PartialEq for InitialServices {
    ghost use Rattle.std.specs.Cmp.{partial_equiv_from_equiv};
    ghost use Rattle.std.specs.Cmp.Lexicographic.{pointwise, lists_equiv};
    ghost use Rattle.commands.specs.contracts.service.ServiceEq.TheImpl.Laws.{laws-law};

    ghost eq = { pointwise ⟦<Service as PartialEq>⟧.eq };

    ghost laws = { partial_equiv_from_equiv (lists_equiv laws-law) };

    fn eq(&self, other: &InitialServices) -> bool {
        self.list.as_slice() == other.list.as_slice()
    }
}

impl Eq for InitialServices {
    ghost use Rattle.std.specs.Cmp.Lexicographic.{lists_equiv};
    ghost use Rattle.commands.specs.contracts.service.ServiceEq.TheImpl.Laws.{laws-law};

    ghost laws = { lists_equiv laws-law };
}

impl PartialEq for UpdateServices {
    ghost use Rattle.std.specs.Cmp.{partial_equiv_from_equiv};
    ghost use Rattle.std.specs.Cmp.Lexicographic.{pointwise, lists_equiv};
    ghost use Rattle.commands.specs.contracts.service.ServiceEq.TheImpl.Laws.{laws-law};

    ghost eq = { pointwise ⟦<Service as PartialEq>⟧.eq };

    ghost laws = { partial_equiv_from_equiv (lists_equiv laws-law) };

    fn eq(&self, other: &UpdateServices) -> bool {
        self.list.as_slice() == other.list.as_slice()
    }
}

impl Eq for UpdateServices {
    ghost use Rattle.std.specs.Cmp.Lexicographic.{lists_equiv};
    ghost use Rattle.commands.specs.contracts.service.ServiceEq.TheImpl.Laws.{laws-law};

    ghost laws = { lists_equiv laws-law };
}

impl PartialEq for TerminationServices {
    ghost use Rattle.std.specs.Cmp.{partial_equiv_from_equiv};
    ghost use Rattle.std.specs.Cmp.Lexicographic.{pointwise, lists_equiv};
    ghost use Rattle.commands.specs.contracts.service.ServiceEq.TheImpl.Laws.{laws-law};

    ghost eq = { pointwise ⟦<Service as PartialEq>⟧.eq };

    ghost laws = { partial_equiv_from_equiv (lists_equiv laws-law) };

    fn eq(&self, other: &TerminationServices) -> bool {
        self.list.as_slice() == other.list.as_slice()
    }
}

impl Eq for TerminationServices {
    ghost use Rattle.std.specs.Cmp.Lexicographic.{lists_equiv};
    ghost use Rattle.commands.specs.contracts.service.ServiceEq.TheImpl.Laws.{laws-law};

    ghost laws = { lists_equiv laws-law };
}
