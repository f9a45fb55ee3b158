//! Makes a desk with its clients, and ends it.
ghost use Rattle.std.specs.Prelude.{◌≡◌, ◌≤◌, ◌∷◌, ◌++◌, [], ℕ, length, map, slice_get, Some, IfOk, IfErr, OnOk};
ghost use Rattle.cast_box.specs.Lists.{of, StartsWith, IsFair};
ghost use Rattle.cast_box.specs.Ends.{PutterEnd, TakerEnd, AreAllEnds, IsSize};
ghost use Rattle.cast_desk.specs.declared.notice.Notice.{Notice};
ghost use Rattle.cast_desk.specs.Desk.{ClientState, IsDeskOf, IsNewDesk, IsNewTray, IsClients, IsFaultOf, new_client};

use crate::client::Client;
use crate::desk::Desk;
use crate::notice::Notice;
use cast_box::{BoxFault, Gathered, MOST_PLACES, Putter, Taker, make_box};
use cast_journal::OrderIn;
use std::alloc::{AllocError, Global};
use std::sync::Wait;

/// The most clients a desk has.
pub const MOST_CLIENTS: u64 = 4;

/// A desk with `clients` clients, 1 to 4, by number from 0, each with a tray. Each box has `size` places, 1 to 4,096,
/// and tickets count up from `first_ticket`. All memory that the boxes ever need is allocated here. Refusals are those
/// of a box: first `Size`, then `Putters` for a wrong number of clients.
pub fn make_desk(
    alloc: Global,
    size: u64,
    clients: u64,
    first_ticket: u64,
) -> Result<(Vec<Client>, Desk), BoxFault>
    ensures ends { IfOk result (λ r. IsDeskOf r.0.items r.1.orders r.1.trays.items
        × (length r.0.items ≡ clients)
        × IsNewDesk size first_ticket r.0.items r.1.orders r.1.trays.items) }
    ensures limits { IfOk result (λ _. IsSize size × IsClients clients) }
    ensures fault { IfErr result (IsFaultOf size clients) }
{
    if size < 1 || size > MOST_PLACES {
        return Err(BoxFault::Size);
    }
    if clients < 1 || clients > MOST_CLIENTS {
        return Err(BoxFault::Putters);
    }
    open(alloc, size, clients, first_ticket).map_err(|_| BoxFault::Memory)
}

fn open(
    alloc: Global,
    size: u64,
    clients: u64,
    first_ticket: u64,
) -> Result<(Vec<Client>, Desk), AllocError>
    requires { clients ≤ 4 }
    ensures { IfOk result (λ r. IsDeskOf r.0.items r.1.orders r.1.trays.items
        × (length r.0.items ≡ clients)
        × IsNewDesk size first_ticket r.0.items r.1.orders r.1.trays.items) }
{
    let Ok((putters, orders)) = make_box::<OrderIn>(alloc, size, clients) else {
        return Err(AllocError);
    };
    let mut all = Vec::new(alloc);
    let mut trays = Vec::new(alloc);
    for putter in putters {
        add_client(alloc, size, first_ticket, putter, &mut all, &mut trays)?;
    }
    Ok((all, Desk { orders, trays }))
}

// Adds the client with this putter, and makes its tray.
fn add_client(
    alloc: Global,
    size: u64,
    first_ticket: u64,
    putter: Putter<OrderIn>,
    clients: &mut Vec<Client>,
    trays: &mut Vec<Putter<Notice>>,
) -> Result<(), AllocError>
    requires { putter.put ≡ [] }
    ensures { OnOk result ((tray : PutterEnd Notice) × (taker : TakerEnd Notice)
        × IsNewTray size tray taker
        × (trays.new.items ≡ trays.old.items ++ tray ∷ [])
        × (clients.new.items ≡ clients.old.items
        ++ new_client (length clients.old.items) first_ticket putter taker ∷ [])) }
{
    let number = clients.len() as u64;
    let (tray_putter, tray) = make_tray(alloc, size)?;
    trays.push(tray_putter)?;
    clients.push(Client::new(number, first_ticket, putter, tray))?;
    Ok(())
}

fn make_tray(alloc: Global, size: u64) -> Result<(Putter<Notice>, Taker<Notice>), AllocError>
    ensures { IfOk result (λ r. IsNewTray size r.0 r.1) }
{
    let Ok((putters, taker)) = make_box::<Notice>(alloc, size, 1) else {
        return Err(AllocError);
    };
    Ok((sole(putters), taker))
}

fn sole(mut all: Vec<Putter<Notice>>) -> Putter<Notice>
    requires { length all.items ≡ 1 }
    ensures { all.items ≡ result ∷ [] }
{
    all.swap_remove(0)
}

/// Ends all boxes of a desk, given all their ends, the clients by number. What the desk took from a client, followed by
/// what is left, is what the client submitted. The client took a prefix of what was put into its tray. No more is left
/// than the desk has places. It allocates nothing.
pub fn end_desk<R: Wait>(rt: &R, clients: Vec<Client>, desk: Desk) -> Gathered<OrderIn>
    requires { IsDeskOf clients.items desk.orders desk.trays.items }
    ensures orders { (c : ℕ) (client : ClientState) → slice_get clients.items c ≡ Some client →
        of c (desk.orders.taken ++ result.left) ≡ client.orders.put }
    ensures notices { (c : ℕ) (client : ClientState) (tray : PutterEnd Notice) →
        slice_get clients.items c ≡ Some client → slice_get desk.trays.items c ≡ Some tray
        → StartsWith tray.put (map (λ m. m.1) client.tray.taken) }
    ensures fair { IsFair (map (λ c. c.orders.put) clients.items) desk.orders.taken result.left }
    ensures gathered { (result.taken ≡ desk.orders.taken)
        × (result.put ≡ map (λ c. c.orders.put) clients.items) }
    ensures room { length result.left ≤ desk.orders.size }
{
    let Desk { mut orders, trays } = desk;
    let mut trays = trays.into_iter();
    for client in clients {
        let tray = trays.next().unwrap();
        let (putter, taker) = client.into_ends();
        orders.end(putter);
        end_tray(rt, tray, taker);
    }
    orders.gather(rt)
}

fn end_tray<R: Wait>(rt: &R, putter: Putter<Notice>, mut taker: Taker<Notice>)
    requires { AreAllEnds (putter ∷ []) taker }
    ensures { StartsWith putter.put (map (λ m. m.1) taker.taken) }
{
    taker.end(putter);
    let _left = taker.gather(rt);
}
