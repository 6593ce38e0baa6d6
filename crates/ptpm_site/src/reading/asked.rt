//! The six management ids whose answers make the picture.

/// A management id of the six, in the standard's order (table 59).
#[derive(Clone, Copy, PartialEq, Eq)]
pub enum Asked {
    UserDescription,
    DefaultDataSet,
    CurrentDataSet,
    ParentDataSet,
    TimePropertiesDataSet,
    PortDataSet,
}

/// Those of a clock itself, in the order in which they are printed.
pub const OF_CLOCK: [Asked; 5] = [
    Asked::DefaultDataSet,
    Asked::CurrentDataSet,
    Asked::ParentDataSet,
    Asked::TimePropertiesDataSet,
    Asked::UserDescription,
];

/// The six, in the order in which they are reported.
pub fn six() -> [Asked; 6] {
    [
        Asked::DefaultDataSet,
        Asked::CurrentDataSet,
        Asked::ParentDataSet,
        Asked::TimePropertiesDataSet,
        Asked::PortDataSet,
        Asked::UserDescription,
    ]
}

/// The six, by their managementIds.
pub fn by_number() -> [Asked; 6] {
    [
        Asked::UserDescription,
        Asked::DefaultDataSet,
        Asked::CurrentDataSet,
        Asked::ParentDataSet,
        Asked::TimePropertiesDataSet,
        Asked::PortDataSet,
    ]
}

impl Asked {
    /// The id of the six with this managementId, or `None` for any other managementId.
    pub fn of_id(id: u16) -> Option<Asked> {
        match id {
            0x0002 => Some(Asked::UserDescription),
            0x2000 => Some(Asked::DefaultDataSet),
            0x2001 => Some(Asked::CurrentDataSet),
            0x2002 => Some(Asked::ParentDataSet),
            0x2003 => Some(Asked::TimePropertiesDataSet),
            0x2004 => Some(Asked::PortDataSet),
            _ => None,
        }
    }

    /// Its managementId.
    pub fn number(self) -> u16 {
        match self {
            Asked::UserDescription => 0x0002,
            Asked::DefaultDataSet => 0x2000,
            Asked::CurrentDataSet => 0x2001,
            Asked::ParentDataSet => 0x2002,
            Asked::TimePropertiesDataSet => 0x2003,
            Asked::PortDataSet => 0x2004,
        }
    }

    /// Whether it is the same id as another.
    pub fn is(self, other: Asked) -> bool {
        self.number() == other.number()
    }

    /// The standard's name.
    pub fn name(self) -> &'static str {
        match self {
            Asked::UserDescription => "USER_DESCRIPTION",
            Asked::DefaultDataSet => "DEFAULT_DATA_SET",
            Asked::CurrentDataSet => "CURRENT_DATA_SET",
            Asked::ParentDataSet => "PARENT_DATA_SET",
            Asked::TimePropertiesDataSet => "TIME_PROPERTIES_DATA_SET",
            Asked::PortDataSet => "PORT_DATA_SET",
        }
    }
}
