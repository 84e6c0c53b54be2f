//! The table of containers.
ghost use Rattle.std.specs.Prelude.{◌≡◌};
ghost use Rattle.container_cells.specs.Table.{family_of, touch_of};

/// Containers with the same methods.
#[derive(Clone, Copy)]
pub enum Family {
    Maps,
    Lists,
    Sets,
}

/// What a call does to what a container holds.
#[derive(Clone, Copy)]
pub enum CellTouch {
    Look,
    Change,
}

/// The family of the types of this last name.
pub fn family_of(last_name: &str) -> Option<Family>
    ensures { result ≡ family_of last_name.now }
{
    match last_name {
        "Map" | "HashMap" | "LinkedHashMap" | "TreeMap" => Some(Family::Maps),
        "List" | "ArrayList" | "LinkedList" => Some(Family::Lists),
        "Set" | "HashSet" | "LinkedHashSet" | "TreeSet" => Some(Family::Sets),
        _ => None,
    }
}

fn touch_of_map(method: &str, count: u32) -> Option<CellTouch>
    ensures { result ≡ touch_of Family.Maps method.now count }
{
    if count == 0 {
        return match method {
            "size" | "isEmpty" => Some(CellTouch::Look),
            "clear" => Some(CellTouch::Change),
            _ => None,
        };
    }
    if count == 1 {
        return match method {
            "get" | "containsKey" | "containsValue" => Some(CellTouch::Look),
            "putAll" | "remove" => Some(CellTouch::Change),
            _ => None,
        };
    }
    if count == 2 {
        return match method {
            "getOrDefault" => Some(CellTouch::Look),
            "put" | "putIfAbsent" => Some(CellTouch::Change),
            _ => None,
        };
    }
    None
}

fn touch_of_list(method: &str, count: u32) -> Option<CellTouch>
    ensures { result ≡ touch_of Family.Lists method.now count }
{
    if count == 0 {
        return match method {
            "size" | "isEmpty" => Some(CellTouch::Look),
            "clear" => Some(CellTouch::Change),
            _ => None,
        };
    }
    if count == 1 {
        return match method {
            "get" | "contains" | "indexOf" => Some(CellTouch::Look),
            "add" | "addAll" | "remove" => Some(CellTouch::Change),
            _ => None,
        };
    }
    if count == 2 {
        return match method {
            "add" | "set" => Some(CellTouch::Change),
            _ => None,
        };
    }
    None
}

fn touch_of_set(method: &str, count: u32) -> Option<CellTouch>
    ensures { result ≡ touch_of Family.Sets method.now count }
{
    if count == 0 {
        return match method {
            "size" | "isEmpty" => Some(CellTouch::Look),
            "clear" => Some(CellTouch::Change),
            _ => None,
        };
    }
    if count == 1 {
        return match method {
            "contains" => Some(CellTouch::Look),
            "add" | "addAll" | "remove" => Some(CellTouch::Change),
            _ => None,
        };
    }
    None
}

/// What a call of a method with so many arguments does to what a container holds.
pub fn touch_of(family: Family, method: &str, count: u32) -> Option<CellTouch>
    ensures { result ≡ touch_of family method.now count }
{
    match family {
        Family::Maps => touch_of_map(method, count),
        Family::Lists => touch_of_list(method, count),
        Family::Sets => touch_of_set(method, count),
    }
}
