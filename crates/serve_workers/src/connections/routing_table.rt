ghost use Rattle.std.specs.Prelude.{◌≡◌, IfOk, IfSome, Some, None, replicate, slice_get, slice_set, option_and_then};
ghost use Rattle.serve_workers.specs.Connections.Routes.{other_than, served_by};

use std::alloc::{AllocError, Global};

/// The connections of a centre, and the train that each may serve: the last whose session was initiated over it. A
/// connection serves at most one train. The lane of that train knows whether it does.
#[derive(Drop)]
pub(crate) struct RoutingTable<C: Drop> {
    // By the connections' numbers.
    connections: Vec<Option<C>>,
    // By the connections' numbers: the place of the train in the line file.
    trains: Vec<Option<usize>>,
}

impl<C: Drop> RoutingTable<C> {
    /// Places for this many connections.
    pub fn new(alloc: Global, connections: usize) -> Result<Self, AllocError>
        ensures connections { IfOk result (λ b. b.connections.items ≡ replicate connections None) }
        ensures trains { IfOk result (λ b. b.trains.items ≡ replicate connections None) }
    {
        let trains = vec![in alloc; None; connections]?;
        let connections = no_places(alloc, connections)?;
        Ok(RoutingTable {
            connections,
            trains,
        })
    }

    /// Enters a connection under its number. It serves no train yet. It is dropped if there is no place of that number.
    pub fn enter(&mut self, number: usize, connection: C)
        ensures connections { self.new.connections.items
            ≡ slice_set self.old.connections.items number (Some connection) }
        ensures trains { self.new.trains.items ≡ slice_set self.old.trains.items number None }
    {
        self.set_train(number, None);
        if let Some(place) = self.connections.get_mut(number) {
            *place = Some(connection);
        }
    }

    /// Removes a connection, and returns it if it was there. It serves no train any more.
    pub fn leave(&mut self, number: usize) -> Option<C>
        ensures given { result ≡ option_and_then (λ c. c) (slice_get self.old.connections.items number) }
        ensures connections { self.new.connections.items ≡ slice_set self.old.connections.items number None }
        ensures trains { self.new.trains.items ≡ slice_set self.old.trains.items number None }
    {
        self.set_train(number, None);
        self.connections.get_mut(number)?.take()
    }

    /// From now on the connection may serve this train and no other. The result is another train that it served before,
    /// if there was one.
    pub fn serve(&mut self, number: usize, train: usize) -> Option<usize>
        ensures before { result ≡ other_than train (served_by number self.old.trains.items) }
        ensures connections { self.new.connections.items ≡ self.old.connections.items }
        ensures trains { self.new.trains.items ≡ slice_set self.old.trains.items number (Some train) }
    {
        let before = self.train_of(number);
        self.set_train(number, Some(train));
        other_than(train, before)
    }

    /// The train that the connection of this number may serve.
    pub fn train_of(&self, number: usize) -> Option<usize>
        ensures { result ≡ served_by number self.now.trains.items }
    {
        *self.trains.get(number)?
    }

    /// The connection of this number, if it is there.
    pub fn connection(&self, number: usize) -> Option<&C>
        ensures { IfSome result (λ c. slice_get self.now.connections.items number ≡ Some (Some c.now)) }
    {
        self.connections.get(number)?.as_ref()
    }

    /// The connection of this number, if it is there and serves this train.
    pub fn connection_for(&self, number: usize, train: usize) -> Option<&C>
        ensures own { IfSome result (λ c. slice_get self.now.connections.items number ≡ Some (Some c.now)) }
        ensures train { IfSome result (λ c. served_by number self.now.trains.items ≡ Some train) }
    {
        if self.train_of(number) != Some(train) {
            return None;
        }
        self.connection(number)
    }

    // From now on the connection may serve this train, or none.
    fn set_train(&mut self, number: usize, train: Option<usize>)
        ensures connections { self.new.connections.items ≡ self.old.connections.items }
        ensures trains { self.new.trains.items ≡ slice_set self.old.trains.items number train }
    {
        if let Some(place) = self.trains.get_mut(number) {
            *place = train;
        }
    }
}

// This many empty places.
fn no_places<C: Drop>(alloc: Global, count: usize) -> Result<Vec<Option<C>>, AllocError>
    ensures { IfOk result (λ places. places.items ≡ replicate count None) }
{
    let mut places = Vec::with_capacity(alloc, count)?;
    for _ in 0..count {
        places.push(None)?;
    }
    Ok(places)
}

// The train, if it is not this one.
fn other_than(train: usize, served: Option<usize>) -> Option<usize>
    ensures { result ≡ other_than train served }
{
    match served {
        Some(before) if before == train => None,
        other => other,
    }
}
