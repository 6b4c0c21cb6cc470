// Who may read or write what.
ghost use Rattle.std.specs.Prelude.{◌≡◌, ◌||◌, slice_index_or};
ghost use Rattle.model.specs.Access.{zone_reads, zone_writes, zone_readable, zone_writable, area_of, stage_of};
ghost use Rattle.model.specs.Access as model;
ghost use Rattle.model.specs.Single.{is_fuse_byte};
ghost use Rattle.access.specs.Column.{column_of, column_allows, allows_of};
ghost use Rattle.access.specs.Permissions.{code_of, codes_of, write_of, SamePermission};
ghost use Rattle.access.specs.VolatileState.{active_of, volatile_of};
ghost use Rattle.access.specs.declared.rights.Permission.TheVariants.{Free};

use crate::register::{Register, fields};
use crate::volatile::{PwSet, Volatile};
use Permission::{Free, No, Sc, Wp};

// Who may reach a byte of the configuration: everyone, who gave write password 7, who gave the write password of the byte's set, no one.
#[derive(Clone, Copy, Debug, PartialEq, Eq)]
pub enum Permission {
    Free,
    Sc,
    Wp,
    No,
}

// The fuse stages, F = 7, 6, 4 and 0: the permissions of the seven areas for reading, then for writing.
const PERMISSIONS: [[[Permission; 7]; 2]; 4] = [
    [
        [Free, Free, Free, Free, Free, Free, Free],
        [Free, Free, Free, Free, Free, Free, Free],
    ],
    [
        [Free, Free, Free, Sc, Free, Sc, Free],
        [No, Sc, Sc, Sc, Free, Sc, Sc],
    ],
    [
        [Free, Free, Free, Sc, Free, Sc, Free],
        [No, No, Sc, Sc, Free, Sc, Sc],
    ],
    [
        [Free, Free, Free, No, Free, Wp, Free],
        [No, No, No, No, Free, Wp, Wp],
    ],
];

// What is done to a byte: the place of its permission in a pair of the table.
#[derive(Clone, Copy, Debug, PartialEq, Eq)]
pub enum Access {
    Read,
    Write,
}

// The permissions of the seven areas at a fuse byte's stage, for reading or for writing, and the password that is active.
#[derive(Clone, Copy, Debug, PartialEq, Eq)]
pub struct Column {
    pub permissions: [Permission; 7],
    pub active: Option<u8>,
}

// For F below 7: whether the access register lets a zone be read.
fn zone_reads(register: u8, state: Volatile) -> bool
    ensures { result ≡ zone_reads register (volatile_of state) }
{
    let Register { ate, rpe, set, .. } = fields(register);
    let granted = state.is_granted();
    let write = state.is_active(set.write_selector());
    let read = state.is_active(set.read_selector());
    (!ate || granted) && (!rpe || write || read)
}

// For F below 7: whether the access register lets a zone be written.
fn zone_writes(fuses: u8, register: u8, state: Volatile) -> bool
    ensures { result ≡ zone_writes fuses register (volatile_of state) }
{
    let Register {
        ate,
        wpe,
        set,
        mdf,
        ..
    } = fields(register);
    let granted = state.is_granted();
    let opened = state.is_active(set.write_selector());
    let needed = wpe || fuses != 0;
    (!ate || granted) && (!needed || opened) && !mdf
}

// Whether a zone may be read, by the fuse byte and its access register; with F = 7 all is free.
pub fn zone_readable(fuses: u8, register: u8, state: Volatile) -> bool
    ensures { result ≡ zone_readable fuses register (volatile_of state) }
{
    fuses == 7 || zone_reads(register, state)
}

// Whether a zone may be written; with F = 7 all is free.
pub fn zone_writable(fuses: u8, register: u8, state: Volatile) -> bool
    ensures { result ≡ zone_writable fuses register (volatile_of state) }
{
    fuses == 7 || zone_writes(fuses, register, state)
}

// The stage of a fuse byte: a number, since it is a place in the table.
#[tactic(auto, unfolding(model::specs::Access::stage_of))]
pub fn stage(fuses: u8) -> u8
    ensures { result ≡ stage_of fuses }
{
    match fuses {
        7 => 0,
        6 => 1,
        4 => 2,
        _ => 3,
    }
}

// The password set of a configuration address from $40 on; any set below.
fn set_of(address: u8) -> PwSet
    ensures { result.0 ≡ model.set_of address }
{
    PwSet(address.saturating_sub(64) / 8 % 8)
}

impl Permission {
    // The permission that a code stands for; one that is none of the four lets no one through.
    #[tactic(auto, unfolding(model::specs::Access::permits))]
    pub fn of_code(code: u8) -> Permission
        ensures { SamePermission code (code_of result) }
    {
        match code {
            0 => Free,
            1 => Sc,
            2 => Wp,
            _ => No,
        }
    }
}

impl Column {
    // A command makes its column once, since each use of the table copies it.
    pub fn new(access: Access, fuses: u8, active: Option<u8>) -> Column
        ensures permissions { codes_of result.permissions ≡ column_of (write_of access) fuses }
        ensures active { result.active ≡ active }
    {
        Column {
            permissions: PERMISSIONS[stage(fuses) as usize][access as usize],
            active,
        }
    }

    // A column of codes, of whatever numbers.
    pub fn of_codes(codes: &[u8; 7], active: Option<u8>) -> Column
        ensures { (a : _) → allows_of result a ≡ column_allows codes.now a (active_of active) }
    {
        Column {
            permissions: [
                Permission::of_code(codes[0]),
                Permission::of_code(codes[1]),
                Permission::of_code(codes[2]),
                Permission::of_code(codes[3]),
                Permission::of_code(codes[4]),
                Permission::of_code(codes[5]),
                Permission::of_code(codes[6]),
            ],
            active,
        }
    }

    // The permission of an address. A test for each area, and no index, leaves a loop over addresses free of branches.
    #[tactic(auto, unfolding(model::specs::Access::area_of))]
    fn permission(&self, address: u8) -> Permission
        ensures { result ≡ slice_index_or self.now.permissions (area_of address) Free }
    {
        match address {
            ..12 => self.permissions[0],
            ..16 => self.permissions[1],
            ..48 => self.permissions[2],
            ..56 => self.permissions[3],
            ..64 => self.permissions[4],
            _ if address % 4 == 0 => self.permissions[6],
            _ => self.permissions[5],
        }
    }

    // Whether a configuration address may be reached.
    #[tactic(auto, unfolding(model::specs::Access::permits))]
    pub fn allows(&self, address: u8) -> bool
        ensures { result ≡ allows_of self.now address }
    {
        match self.permission(address) {
            Free => true,
            Sc => self.active == Some(7),
            Wp => self.active == Some(set_of(address).write_selector()),
            No => false,
        }
    }
}

// Whether a configuration address may be reached, by the codes of a column.
pub fn configuration_allows(codes: &[u8; 7], address: u8, active: Option<u8>) -> bool
    ensures { result ≡ column_allows codes.now address (active_of active) }
{
    Column::of_codes(codes, active).allows(address)
}

// Whether a fuse byte has one of its four values.
pub fn is_fuse_byte(fuses: u8) -> bool
    ensures { result ≡ is_fuse_byte fuses }
{
    matches!(fuses, 7 | 6 | 4 | 0)
}
