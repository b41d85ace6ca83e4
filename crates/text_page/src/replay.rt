//! The script of the page of a print.

/// Shows the line after the event of the slider. For each section, train and session the last line so far counts.
pub(crate) const REPLAY: &str = "
const run=JSON.parse(document.getElementById('run').textContent);
const nav=document.querySelector('nav'),range=nav.querySelector('input');
for(const name of ['tracks','centres','sections','events','states','missions','phases'])run[name]=rows(run[name]);
line=run;
const last=(list,key,event)=>{
  const found=new Map();
  for(const it of list)if(it.event<=event)found.set(key(it),it);
  return [...found.values()]};

function present(event){
  const told=run.events.filter(it=>it.event<=event).slice(-24).reverse();
  nav.querySelector('output').textContent=event<run.first?'before '+run.first:event;
  show({trains:last(run.missions,it=>it.train,event).filter(it=>it.track!=null),
    sections:last(run.states,it=>it.section,event)
      .map(it=>({...line.sections[it.section],...it,first:it.section,last:it.section})),
    sessions:last(run.phases,it=>it.train+' '+it.centre,event).filter(it=>it.state!=null),
    last:told.map(it=>({event:it.event+' · '+it.words}))},
    event<run.first?`Before event ${run.first}, of ${run.of}.`:`After event ${event} of ${run.of}: ${told[0].words}`,
    [])}

const turn=()=>{range.value=+location.hash.slice(1)||run.last;present(+range.value)};
[range.min,range.max,range.oninput,onhashchange]=[run.first-1,run.last,()=>present(+range.value),turn];
nav.hidden=run.last<run.first;
mark(run.train??'');
turn();
";
