//! The table of sessions.
ghost use Rattle.std.specs.Prelude.{◌≡◌, ◌+◌, ◌-◌, ◌<◌, ◌≤◌, [], ◌∷◌, true, false, map, filter, count_by, Some, None, OnOk, OnErr, IfOk, IfErr};
ghost use Rattle.gt_base.specs.Sets.{has, Rises};
ghost use Rattle.gtrbac_model.specs.Same.{same_role, lists};
ghost use Rattle.session_table.specs.RoleSets.{role_cmp};
ghost use Rattle.gt_base.specs.declared.events.PermId.{PermId};
ghost use Rattle.gt_base.specs.declared.events.RoleId.{RoleId};
ghost use Rattle.gt_base.specs.declared.requests.Actor.TheVariants.{User};
ghost use Rattle.gt_base.specs.declared.requests.Request.TheVariants.{OpenSession, CloseSession, Activate, Deactivate, Active as AskActive, Check};
ghost use Rattle.gt_base.specs.declared.requests.Reply.TheVariants.{Session, Done, Active, Truth, Refused as IsRefused};
ghost use Rattle.gtrbac_model.specs.Calendar.{day_of};
ghost use Rattle.gtrbac_model.specs.Sessions.{applied, empty_table, signal_of};
ghost use Rattle.hybrid_hierarchy.specs.Nets.{IsHierarchy};
ghost use Rattle.session_table.specs.Opened.{in_session, opened};
ghost use Rattle.session_table.specs.Tables.{table_of, ForgetsDays, NotBefore, closed_at, is_capped};
ghost use Rattle.session_table.specs.NextDrops.{IsFirstOrNone, is_any_capped};
ghost use Rattle.session_table.specs.Plans.{need_of, IsDropPlan, IsPlanWhereAllStand, IsPlanned, ClosesTable};
ghost use Rattle.session_table.specs.Replies.{Answers, AnswersAt, OrRefused, IsRefusal, ChecksBy};

use crate::activating::{Permitting, enter, permitted};
use crate::activations::{Activation, count_in, end_session, find_active, signal_of};
use crate::active::ActiveRow;
use crate::charged_days::{
    ChargedDays, charge_stretch, copied as copied_charges, forget_days, no_charges, reserve_charges,
};
use crate::checks::{caps_of, early_refusal, late_refusal, owned};
use crate::closings::{Closing, Stretch};
use crate::dropping::{AskedWalk, capped, dropped, prune, remember, signals_of, take_out};
use crate::faults::SessionFault;
use crate::nearing::next_capped;
use crate::opened::{
    Open, add_role, close_up, copied as copied_sessions, has_role, owner_at, place, push,
    remove_role, roles_at, shut,
};
use crate::plans::Drops;
use crate::roles::Roles;
use civil_time::day;
use gt_base::{
    Actor, Caps, HierEdge, Instant, List, MAX_SESSIONS, Memory, Refusal, RoleId, SessionId, Signal,
    Status, UserId, Walk,
};
use hybrid_hierarchy::Hierarchy;
use indexmap::IndexMap;
use std::alloc::Global;
use std::marker::Model;

/// The open sessions with their owners, the roles that are active in them since when, and the
/// minutes that are charged to users, roles and civil days. It is seen as these, with the number of
/// sessions begun, the instant up to which minutes were charged, if any were, and for how many
/// activations minutes can be charged. The walks that minutes found are kept beside them, to be
/// looked at again.
pub struct Sessions {
    alloc: Global,
    sessions: Vec<Open>,
    standing: usize,
    active: ActiveRow,
    charges: ChargedDays,
    begun: u32,
    charged_to: Option<Instant>,
    walks: IndexMap<AskedWalk, Walk>,
}

impl Model for Sessions {
    ghost use Rattle.std.specs.Prelude.{map};
    ghost use Rattle.session_table.specs.Opened.{opened, still_open};
    ghost use Rattle.session_table.specs.Kept.{IsTable};
    ghost use Rattle.session_table.specs.Tables.{TableView};

    ghost Value = { TableView };

    ghost view = { λ s. record {
      sessions = map opened (still_open s.sessions.items);
      active = s.active.items;
      charges = s.charges.charged;
      begun = s.begun;
      charged_to = s.charged_to;
      room = s.charges.room;
    } };

    ghost invariant = { λ s. IsTable s.sessions.items s.standing s.active.items s.charges.charged
        s.charged_to s.begun };
}

impl Drop for Sessions {
    fn drop(self) {
        let Sessions {
            alloc: _,
            sessions: _,
            standing: _,
            active: _,
            charges: _,
            begun: _,
            charged_to: _,
            walks: _,
        } = self;
    }
}

impl Sessions {
    /// A table with no session, of which none was begun and nothing charged. It takes no memory
    /// yet.
    pub fn new(alloc: Global) -> Sessions
        ensures table { table_of result ≡ empty_table }
        ensures charged_to { result.charged_to ≡ None }
    {
        Sessions {
            alloc,
            sessions: Vec::new(alloc),
            standing: 0,
            active: ActiveRow::new(alloc),
            charges: no_charges(alloc),
            begun: 0,
            charged_to: None,
            walks: IndexMap::new(alloc),
        }
    }

    /// A table that is seen as this one, but for its room. For want of memory it may refuse.
    pub fn copied(&self) -> Result<Sessions, Memory>
        ensures table { IfOk result (λ copy. table_of copy ≡ table_of self.now) }
        ensures charged_to { IfOk result (λ copy. copy.charged_to ≡ self.now.charged_to) }
    {
        let sessions = copied_sessions(self.alloc, &self.sessions)?;
        let active = self.active.copied(self.alloc)?;
        let charges = copied_charges(&self.charges)?;
        Ok(Sessions {
            alloc: self.alloc,
            sessions,
            standing: self.standing,
            active,
            charges,
            begun: self.begun,
            charged_to: self.charged_to,
            walks: IndexMap::new(self.alloc),
        })
    }

    /// Opens a session for the user and answers its number: the number of sessions begun before,
    /// and one. No number is used again. Refused with `SessionsFull` exactly where 10,000 sessions
    /// are open, or for want of memory; the table is then as it was.
    pub fn begin(&mut self, user: UserId) -> Result<SessionId, SessionFault>
        requires { self.old.begun < u32.MAX }
        ensures answer { IfOk result
            (λ n. Answers (table_of self.old) (User user) OpenSession (Session n)) }
        ensures table { IfOk result
            (λ n. table_of self.new
            ≡ applied 0 (User user) OpenSession (Session n) (table_of self.old)) }
        ensures charged_to { self.new.charged_to ≡ self.old.charged_to }
        ensures refused { IfErr result
            (λ fault. OrRefused fault (Answers (table_of self.old) (User user) OpenSession)) }
        ensures same { OnErr result (table_of self.new ≡ table_of self.old) }
    {
        if self.standing >= MAX_SESSIONS {
            return Err(SessionFault::Refused(Refusal::SessionsFull));
        }
        let number = SessionId(self.begun + 1);
        let session = Open {
            number,
            owner: user,
            roles: Roles::new(self.alloc),
            is_open: true,
        };
        push(&mut self.sessions, session)?;
        self.standing += 1;
        self.begun += 1;
        Ok(number)
    }

    /// Ends the session and its activations, and answers the end signal of each. Refused with
    /// `NoSession` where no session of this number is open, `NotYours` where the actor is a user
    /// other than its owner, or for want of memory; the table is then as it was.
    pub fn finish(&mut self, actor: Actor, session: SessionId) -> Result<List<Signal>, SessionFault>
        ensures answer { OnOk result
            (Answers (table_of self.old) actor (CloseSession session) Done) }
        ensures table { IfOk result
            (λ signals. applied 0 actor (CloseSession session) Done (table_of self.old)
            ≡ record (table_of self.new) { signals = signals.items }) }
        ensures charged_to { self.new.charged_to ≡ self.old.charged_to }
        ensures refused { IfErr result
            (λ fault. OrRefused fault
            (Answers (table_of self.old) actor (CloseSession session))) }
        ensures same { OnErr result (table_of self.new ≡ table_of self.old) }
    {
        let at = match owned(&self.sessions, actor, session) {
            Ok(at) => at,
            Err(refusal) => return Err(SessionFault::Refused(refusal)),
        };
        let most = roles_at(&self.sessions, at).len();
        let mut signals = Vec::with_capacity(self.alloc, most)?;
        end_session(&mut self.active, session, most, &mut signals);
        shut(self.alloc, &mut self.sessions, at);
        self.standing -= 1;
        close_up(&mut self.sessions, self.standing);
        Ok(List::from(signals))
    }

    /// Ends the activation of the role in the session, and answers its end signal. It takes no
    /// memory. Refused with `NoSession`, `NotYours`, or `NotActive` where the role is not active in
    /// the session; the table is then as it was.
    pub fn deactivate(
        &mut self,
        actor: Actor,
        session: SessionId,
        role: RoleId,
    ) -> Result<Signal, SessionFault>
        ensures answer { OnOk result
            (Answers (table_of self.old) actor (Deactivate session role) Done) }
        ensures table { IfOk result
            (λ signal. applied 0 actor (Deactivate session role) Done (table_of self.old)
            ≡ record (table_of self.new) { signals = signal ∷ [] }) }
        ensures charged_to { self.new.charged_to ≡ self.old.charged_to }
        ensures refused { IfErr result
            (λ fault. IsRefusal fault
            (Answers (table_of self.old) actor (Deactivate session role))) }
        ensures same { OnErr result (table_of self.new ≡ table_of self.old) }
    {
        let at = match owned(&self.sessions, actor, session) {
            Ok(at) => at,
            Err(refusal) => return Err(SessionFault::Refused(refusal)),
        };
        let Some(activation) = find_active(self.active.as_slice(), session, role) else {
            return Err(SessionFault::Refused(Refusal::NotActive));
        };
        remove_role(&mut self.sessions, at, role);
        self.active.end_role(session, role);
        Ok(signal_of(false, &activation))
    }

    /// How many activations stand in the session. It takes no memory.
    pub fn count_in(&self, session: SessionId) -> usize
        ensures { result ≡ count_by (in_session session) self.now.active }
    {
        count_in(self.active.as_slice(), session)
    }

    /// As many as the activations that stand in the session, or more, told without a look at those
    /// of others. It takes no memory.
    pub fn most_in(&self, session: SessionId) -> usize
        ensures { count_by (in_session session) self.now.active ≤ result }
    {
        match place(&self.sessions, session) {
            Some(at) => roles_at(&self.sessions, at).len(),
            None => 0,
        }
    }

    /// The roles that are active in the session, ascending. It takes no memory. Refused with
    /// `NoSession` or `NotYours`.
    pub fn active(&self, actor: Actor, session: SessionId) -> Result<&[RoleId], Refusal>
        ensures roles { IfOk result
            (λ roles. (r : RoleId)
            → Answers (table_of self.now) actor (AskActive session r)
            (Truth (lists same_role roles.now r))) }
        ensures check { IfOk result
            (λ roles. (perm : PermId)
            → ChecksBy (table_of self.now) actor session perm roles.now) }
        ensures rises { IfOk result (λ roles. Rises role_cmp roles.now) }
        ensures refused { IfErr result
            (λ refusal. (r : RoleId)
            → Answers (table_of self.now) actor (AskActive session r) (IsRefused refusal)) }
        ensures refused_check { IfErr result
            (λ refusal. (perm : PermId)
            → Answers (table_of self.now) actor (Check session perm) (IsRefused refusal)) }
    {
        match owned(&self.sessions, actor, session) {
            Ok(at) => Ok(roles_at(&self.sessions, at)),
            Err(refusal) => Err(refusal),
        }
    }

    /// Activates the role in the session for its owner, and answers the walk that allows it and the
    /// start signal. Refused, in this order, with `NoSession`, `NotYours`, `Already` where the role
    /// is active in the session, `Disabled` where it is off, `NotAssigned` where no walk of usable
    /// edges allows it, `RoleFull` where as many activations of the role stand as its cap `total`
    /// allows, `UserFull` where as many of the owner's stand as its cap `user` allows, `DaySpent`
    /// where as many minutes are charged on the civil day of now as its cap `day` allows, or for
    /// want of memory; the table is then as it was.
    pub fn activate(
        &mut self,
        edges: &List<HierEdge>,
        caps: &List<Caps>,
        status: &Status,
        now: Instant,
        actor: Actor,
        session: SessionId,
        role: RoleId,
    ) -> Result<(Walk, Signal), SessionFault>
        requires { IsHierarchy edges.now.items }
        ensures answer { IfOk result
            (λ r. AnswersAt edges.now.items caps.now.items (has status.now.set) now
            (table_of self.old) actor (Activate session role) (Active r.0)) }
        ensures table { IfOk result
            (λ r. applied now actor (Activate session role) (Active r.0) (table_of self.old)
            ≡ record (table_of self.new) { signals = r.1 ∷ [] }) }
        ensures charged_to { self.new.charged_to ≡ self.old.charged_to }
        ensures refused { IfErr result
            (λ fault. OrRefused fault
            (AnswersAt edges.now.items caps.now.items (has status.now.set) now
            (table_of self.old) actor (Activate session role))) }
        ensures same { OnErr result (table_of self.new ≡ table_of self.old) }
    {
        let hierarchy = Hierarchy::new(self.alloc, edges)?;
        self.activate_over(&hierarchy, caps, status, now, actor, session, role)
    }

    /// Activates the role in the session for its owner, as `activate` with the edges of the
    /// hierarchy, which was made for many questions.
    pub fn activate_over(
        &mut self,
        hierarchy: &Hierarchy,
        caps: &List<Caps>,
        status: &Status,
        now: Instant,
        actor: Actor,
        session: SessionId,
        role: RoleId,
    ) -> Result<(Walk, Signal), SessionFault>
        ensures answer { IfOk result
            (λ r. AnswersAt hierarchy.now caps.now.items (has status.now.set) now
            (table_of self.old) actor (Activate session role) (Active r.0)) }
        ensures table { IfOk result
            (λ r. applied now actor (Activate session role) (Active r.0) (table_of self.old)
            ≡ record (table_of self.new) { signals = r.1 ∷ [] }) }
        ensures charged_to { self.new.charged_to ≡ self.old.charged_to }
        ensures refused { IfErr result
            (λ fault. OrRefused fault
            (AnswersAt hierarchy.now caps.now.items (has status.now.set) now
            (table_of self.old) actor (Activate session role))) }
        ensures same { OnErr result (table_of self.new ≡ table_of self.old) }
    {
        let by = Permitting {
            alloc: self.alloc,
            active: &self.active,
            charges: &self.charges,
            hierarchy,
            caps,
            status,
            instant: now,
        };
        let (at, user, walk) = match permitted(&self.sessions, &by, actor, session, role) {
            Ok(permit) => permit,
            Err(fault) => return Err(fault),
        };
        let activation = Activation {
            session,
            user,
            role,
            begun: now,
        };
        match enter(
            &mut self.sessions,
            &mut self.active,
            &mut self.walks,
            at,
            activation,
            &walk,
        ) {
            Ok(()) => {}
            Err(_) => return Err(SessionFault::Memory),
        }
        Ok((walk, signal_of(true, &activation)))
    }

    /// Plans the end of the minutes after `now`, up to `to`: what is dropped at `to`, under the
    /// status there, and the room that charging needs. The table stays as it is seen; for want of
    /// memory it may refuse, and then its room stays too or grows. Times are civil minutes.
    pub fn plan_end(
        &mut self,
        edges: &List<HierEdge>,
        caps: &List<Caps>,
        now: Instant,
        to: Instant,
        status: &Status,
    ) -> Result<Drops, Memory>
        requires edges { IsHierarchy edges.now.items }
        requires order { now < to }
        ensures same { table_of self.new ≡ table_of self.old }
        ensures charged_to { self.new.charged_to ≡ self.old.charged_to }
        ensures room { OnOk result (need_of now to self.new ≤ self.new.room) }
        ensures plan { IfOk result
            (IsDropPlan edges.now.items caps.now.items (has status.now.set) now to
            (table_of self.old)) }
    {
        let hierarchy = Hierarchy::new(self.alloc, edges)?;
        self.plan_end_over(&hierarchy, caps, now, to, status)
    }

    /// Plans the end of the minutes after `now`, up to `to`, as `plan_end` with the edges of the
    /// hierarchy, which was made for many questions.
    pub fn plan_end_over(
        &mut self,
        hierarchy: &Hierarchy,
        caps: &List<Caps>,
        now: Instant,
        to: Instant,
        status: &Status,
    ) -> Result<Drops, Memory>
        requires { now < to }
        ensures same { table_of self.new ≡ table_of self.old }
        ensures charged_to { self.new.charged_to ≡ self.old.charged_to }
        ensures room { OnOk result (need_of now to self.new ≤ self.new.room) }
        ensures plan { IfOk result
            (IsDropPlan hierarchy.now caps.now.items (has status.now.set) now to
            (table_of self.old)) }
    {
        prune(&mut self.walks, self.active.len());
        reserve_charges(&mut self.charges, self.active.len())?;
        let at = Closing {
            alloc: self.alloc,
            hierarchy,
            caps,
            status,
            stretch: Stretch {
                charges: &self.charges,
                active: &self.active,
                after: now,
                to,
            },
        };
        let gone = dropped(&at, &mut self.walks)?;
        Drops::new(self.alloc, now, to, gone)
    }

    /// The plan of the same end as `plan_end`, where in the status at `to` each activation's role
    /// is on and a usable walk lets its user activate it, as after minutes in which no fluent
    /// changed: then caps alone drop, and neither the status nor the hierarchy is asked. The table
    /// stays as it was seen, but for its room. For want of memory it may refuse.
    pub fn plan_end_still(
        &mut self,
        caps: &List<Caps>,
        now: Instant,
        to: Instant,
    ) -> Result<Drops, Memory>
        requires order { now < to }
        ensures same { table_of self.new ≡ table_of self.old }
        ensures charged_to { self.new.charged_to ≡ self.old.charged_to }
        ensures room { OnOk result (need_of now to self.new ≤ self.new.room) }
        ensures stretch { IfOk result (λ d. (d.after ≡ now) × (d.to ≡ to)) }
        ensures gone { IfOk result
            (λ d. d.gone
            ≡ filter (is_capped caps.now.items now (table_of self.old) to)
            self.old.active) }
        ensures plan { IfOk result (IsPlanWhereAllStand caps.now.items now to (table_of self.old)) }
    {
        reserve_charges(&mut self.charges, self.active.len())?;
        let over = Stretch {
            charges: &self.charges,
            active: &self.active,
            after: now,
            to,
        };
        let gone = capped(self.alloc, caps.as_slice(), &over)?;
        Drops::new(self.alloc, now, to, gone)
    }

    /// Ends the minutes as planned: each minute after its `now`, up to its `to`, is charged to each
    /// activation, and then those that the plan names are dropped. The sessions stay open. It takes
    /// no memory.
    pub fn commit_end(&mut self, d: Drops)
        requires { IsPlanned self.old d }
        ensures table { ClosesTable self.old d self.new }
        ensures charged_to { self.new.charged_to ≡ Some d.to }
    {
        charge_stretch(&mut self.charges, self.active.as_slice(), d.after, d.to);
        take_out(&mut self.sessions, &mut self.active, &d.gone);
        self.charged_to = Some(d.to);
    }

    /// Ends the minutes after `now`, up to `to`, under the status at `to`: charges each of them to
    /// each activation, drops at `to` what the status, the hierarchy or a cap ends there, and
    /// answers an end signal for each drop. For want of memory it may refuse; the table is then as
    /// it was.
    pub fn end_instants(
        &mut self,
        edges: &List<HierEdge>,
        caps: &List<Caps>,
        now: Instant,
        to: Instant,
        status: &Status,
    ) -> Result<List<Signal>, Memory>
        requires edges { IsHierarchy edges.now.items }
        requires order { now < to }
        requires not_before { NotBefore self.old.charged_to now }
        ensures table { IfOk result
            (λ signals. record (table_of self.new) { signals = signals.items }
            ≡ closed_at edges.now.items caps.now.items (has status.now.set) now to
            (table_of self.old)) }
        ensures charged_to { OnOk result (self.new.charged_to ≡ Some to) }
        ensures same { OnErr result (table_of self.new ≡ table_of self.old) }
        ensures charged_as_before { OnErr result (self.new.charged_to ≡ self.old.charged_to) }
    {
        let d = self.plan_end(edges, caps, now, to, status)?;
        let signals = d.signals().copied()?;
        self.commit_end(d);
        Ok(signals)
    }

    /// Forgets what was charged on the civil days before that of the instant, which no later close
    /// and no cap looks at. It takes no memory.
    pub fn forget_days_before(&mut self, now: Instant)
        ensures table { ForgetsDays (day_of now) (table_of self.old) (table_of self.new) }
        ensures charged_to { self.new.charged_to ≡ self.old.charged_to }
    {
        forget_days(&mut self.charges, day(now));
    }

    /// The first instant after `now` at whose close a cap drops an activation, as long as nothing
    /// else ends or begins one: computed from begins, caps and charges. None exactly where there is
    /// none up to 2099-12-31T23:59. It takes no memory.
    pub fn next_drop(&self, caps: &List<Caps>, now: Instant) -> Option<Instant>
        requires { NotBefore self.now.charged_to now }
        ensures { IsFirstOrNone (is_any_capped caps.now.items now (table_of self.now)) now result }
    {
        next_capped(&self.charges, &self.active, caps.as_slice(), now)
    }
}
